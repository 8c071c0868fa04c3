// Where two planes differ, for other languages. Of what is lent for an answer only what the answer has is written; the rest is as it was.
ghost use Rattle.std.specs.Prelude.{◌≡◌, true, false};
ghost use Rattle.refusal.specs.First.{answer_number};
ghost use Rattle.fuavelino.specs.Called.{called};
ghost use Rattle.plane.specs.Inner.Seen.{planes};
ghost use Rattle.locate.specs.Where.{located_of};
ghost use Rattle.locate.specs.Map.{mapped_of, map_after};
ghost use Rattle.fuavelino.specs.Locate.{differs_written, row_written, column_written};
ghost use Rattle.fuavelino.specs.Locate.{across_written, down_written};

use crate::pair;
use locate::map::Tiled;
use locate::{Place, Tiles};
use plane::Pair;
use refusal::Refusal;

// Writes the place where there is one, and whether there is one.
fn put_place(
    answer: Result<Option<Place>, Refusal>,
    differs: &mut u8,
    row: &mut usize,
    column: &mut usize,
) -> u8
    ensures value { result ≡ answer_number answer }
    ensures differs_after { (differs.new ≡ differs_written answer differs.old)
        × (row.new ≡ row_written answer row.old)
        × (column.new ≡ column_written answer column.old) }
{
    match answer {
        Ok(Some(place)) => {
            *differs = 1;
            *row = place.row;
            *column = place.column;
            0
        }
        Ok(None) => {
            *differs = 0;
            0
        }
        Err(no) => no.number(),
    }
}

// The first place at which two planes of bytes differ: 0, or the lowest of 1 2 4 5 6.
#[tactic(auto, using(crate::proofs::Called::called_is))]
#[unsafe(no_mangle)]
pub extern "C" fn fuavelino_first_difference8(
    a: &[u8],
    b: &[u8],
    width: usize,
    height: usize,
    stride_a: usize,
    stride_b: usize,
    depth: u32,
    differs: &mut u8,
    row: &mut usize,
    column: &mut usize,
) -> u8
    ensures value { result ≡ answer_number (located_of (called false a.entry b.entry width height stride_a stride_b depth)) }
    ensures differs_after { (differs.new ≡ differs_written
        (located_of (called false a.entry b.entry width height stride_a stride_b depth)) differs.old)
        × (row.new ≡ row_written
        (located_of (called false a.entry b.entry width height stride_a stride_b depth)) row.old)
        × (column.new ≡ column_written
        (located_of (called false a.entry b.entry width height stride_a stride_b depth)) column.old) }
{
    let answer = locate::first_difference(pair(a, b, width, height, stride_a, stride_b, depth));
    put_place(answer, differs, row, column)
}

// The same of words.
#[tactic(auto, using(crate::proofs::Called::called_is))]
#[unsafe(no_mangle)]
pub extern "C" fn fuavelino_first_difference16(
    a: &[u16],
    b: &[u16],
    width: usize,
    height: usize,
    stride_a: usize,
    stride_b: usize,
    depth: u32,
    differs: &mut u8,
    row: &mut usize,
    column: &mut usize,
) -> u8
    ensures value { result ≡ answer_number (located_of (called true a.entry b.entry width height stride_a stride_b depth)) }
    ensures differs_after { (differs.new ≡ differs_written
        (located_of (called true a.entry b.entry width height stride_a stride_b depth)) differs.old)
        × (row.new ≡ row_written
        (located_of (called true a.entry b.entry width height stride_a stride_b depth)) row.old)
        × (column.new ≡ column_written
        (located_of (called true a.entry b.entry width height stride_a stride_b depth)) column.old) }
{
    let answer = locate::first_difference(pair(a, b, width, height, stride_a, stride_b, depth));
    put_place(answer, differs, row, column)
}

// Writes how many tiles lie across and down, where there is a map.
fn put_tiles(answer: Result<Tiles, Refusal>, across: &mut usize, down: &mut usize) -> u8
    ensures value { result ≡ answer_number answer }
    ensures across_after { (across.new ≡ across_written answer across.old)
        × (down.new ≡ down_written answer down.old) }
{
    match answer {
        Ok(tiles) => {
            *across = tiles.across;
            *down = tiles.down;
            0
        }
        Err(why) => why.number(),
    }
}

// The squared error of each tile of two planes, to the first places of `map`: 0 and what is written, or the number of the refusal.
fn error_map<S: Tiled>(p: Pair<'_, S>, map: &mut [u64], across: &mut usize, down: &mut usize) -> u8
    ensures value { result ≡ answer_number (mapped_of (planes S.Sample.value S.WIDE p.entry) map.old) }
    ensures map_after { map.new ≡ map_after (planes S.Sample.value S.WIDE p.entry) map.old }
    ensures across_after { (across.new ≡ across_written (mapped_of (planes S.Sample.value S.WIDE p.entry) map.old) across.old)
        × (down.new ≡ down_written (mapped_of (planes S.Sample.value S.WIDE p.entry) map.old) down.old) }
{
    let answer = locate::error_map(p, map);
    put_tiles(answer, across, down)
}

// The squared error of each tile of two planes of bytes, to the first places of `map`: 0, or the lowest of 1 2 4 5 6 8.
#[tactic(auto, using(crate::proofs::Called::called_is))]
#[unsafe(no_mangle)]
pub extern "C" fn fuavelino_error_map8(
    a: &[u8],
    b: &[u8],
    width: usize,
    height: usize,
    stride_a: usize,
    stride_b: usize,
    depth: u32,
    map: &mut [u64],
    across: &mut usize,
    down: &mut usize,
) -> u8
    ensures value { result ≡ answer_number
        (mapped_of (called false a.entry b.entry width height stride_a stride_b depth) map.old) }
    ensures map_after { map.new ≡ map_after
        (called false a.entry b.entry width height stride_a stride_b depth) map.old }
    ensures across_after { (across.new ≡ across_written
        (mapped_of (called false a.entry b.entry width height stride_a stride_b depth) map.old) across.old)
        × (down.new ≡ down_written
        (mapped_of (called false a.entry b.entry width height stride_a stride_b depth) map.old) down.old) }
{
    error_map(
        pair(a, b, width, height, stride_a, stride_b, depth),
        map,
        across,
        down,
    )
}

// The same of words.
#[tactic(auto, using(crate::proofs::Called::called_is))]
#[unsafe(no_mangle)]
pub extern "C" fn fuavelino_error_map16(
    a: &[u16],
    b: &[u16],
    width: usize,
    height: usize,
    stride_a: usize,
    stride_b: usize,
    depth: u32,
    map: &mut [u64],
    across: &mut usize,
    down: &mut usize,
) -> u8
    ensures value { result ≡ answer_number
        (mapped_of (called true a.entry b.entry width height stride_a stride_b depth) map.old) }
    ensures map_after { map.new ≡ map_after
        (called true a.entry b.entry width height stride_a stride_b depth) map.old }
    ensures across_after { (across.new ≡ across_written
        (mapped_of (called true a.entry b.entry width height stride_a stride_b depth) map.old) across.old)
        × (down.new ≡ down_written
        (mapped_of (called true a.entry b.entry width height stride_a stride_b depth) map.old) down.old) }
{
    error_map(
        pair(a, b, width, height, stride_a, stride_b, depth),
        map,
        across,
        down,
    )
}
