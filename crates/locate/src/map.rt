// The squared error of each tile of 8×8 samples; the tiles at the right and bottom edges may be smaller.
ghost use Rattle.std.specs.Prelude.{◌≡◌, ◌+◌, ◌*◌, ◌<◌, ◌≤◌, length, map};
ghost use Rattle.number.specs.Steps.{list_to};
ghost use Rattle.plane.specs.Limits.{side_limit};
ghost use Rattle.plane.specs.Inner.Seen.{planes};
ghost use Rattle.psnr.specs.Inner.Walk.{Walkable, squares_in};
ghost use Rattle.locate.specs.Map.{tile_side, tiles_along, tiles_of, tile_length, piece_error, tile_error, map_places, map_of};
ghost use Rattle.locate.specs.Map.{map_refusal};
ghost use Rattle.locate.specs.Inner.Walk.{piece_most};

use plane::{Pair, Stored};
use psnr::walk::Compared;
use refusal::Refusal;

// The side of a tile.
const TILE_SIDE: usize = 8;

// How many tiles lie along a side.
#[tactic(auto, using(plane::proofs::Limits::side_small), unfolding(crate::specs::Map::tile_side, crate::specs::Map::tiles_along))]
pub fn tiles_along(side: usize) -> usize
    requires { side ≤ side_limit }
    ensures { result ≡ tiles_along side }
{
    side.div_ceil(TILE_SIDE)
}

// How many tiles there are, and so how many places a map needs.
#[tactic(auto, using(plane::proofs::Limits::area_fits, crate::proofs::Sides::along_most))]
pub fn places(width: usize, height: usize) -> usize
    requires { (width ≤ side_limit) × (height ≤ side_limit) }
    ensures { result ≡ tiles_of width height }
{
    tiles_along(height) * tiles_along(width)
}

// How many of a side's samples lie in tile k.
#[tactic(auto, unfolding(crate::specs::Map::tile_side, crate::specs::Map::tile_length))]
fn tile_length(side: usize, k: usize) -> usize
    requires { k * tile_side ≤ side }
    ensures { result ≡ tile_length side k }
{
    TILE_SIDE.min(side - k * TILE_SIDE)
}

// Samples of which tiles are summed. Bytes and words have each their own way: so few squares of bytes fit 32 bits, which is faster.
pub trait Tiled: Compared {
    // The sum over two pieces of rows.
    fn piece(a: &[Self], b: &[Self]) -> u64
        requires { (length a.now ≡ length b.now) × (length a.now ≤ tile_side) }
        ensures { (result ≡ squares_in (map Self.value a.now) (map Self.value b.now) (length a.now)) × (result ≤ piece_most) };
}

impl Tiled for u8 {
    #[tactic(auto, unfolding(crate::specs::Map::tile_side))]
    fn piece(a: &[u8], b: &[u8]) -> u64 {
        u64::from(piece8(a, b))
    }
}

impl Tiled for u16 {
    fn piece(a: &[u16], b: &[u16]) -> u64 {
        piece16(a, b)
    }
}

// The sum over two pieces of bytes.
#[tactic(auto, using(crate::proofs::Sums::piece_steps), unfolding(crate::specs::Map::tile_side))]
fn piece8(a: &[u8], b: &[u8]) -> u32
    requires { (length a.now ≡ length b.now) × (length a.now ≤ tile_side) }
    ensures { result ≡ squares_in a.now b.now (length a.now) }
{
    let mut sum = 0u32;
    for (p, q) in a.iter().zip(b) {
        sum += p.square(*q);
    }
    sum
}

// The same of words.
#[tactic(auto, using(crate::proofs::Sums::piece_steps), unfolding(crate::specs::Map::tile_side))]
fn piece16(a: &[u16], b: &[u16]) -> u64
    requires { (length a.now ≡ length b.now) × (length a.now ≤ tile_side) }
    ensures { (result ≡ squares_in a.now b.now (length a.now)) × (result ≤ piece_most) }
{
    let mut sum = 0u64;
    for (p, q) in a.iter().zip(b) {
        sum += u64::from(p.square(*q));
    }
    sum
}

// The sum over the n samples of row y from column x on. Of a full tile the count is one that the compiler knows: that loop becomes
// straight code.
fn piece_at<S: Tiled>(p: Pair<'_, S>, y: usize, x: usize, n: usize) -> u64
    requires walkable { Walkable (planes S.Sample.value S.WIDE p) }
    requires y_lt_height { (y < p.format.height) × (x + n ≤ p.format.width) × (n ≤ tile_side) }
    ensures { (result ≡ piece_error (planes S.Sample.value S.WIDE p.entry) x n y) × (result ≤ piece_most) }
{
    let row_a = plane::row(p.a, p.format.width, y);
    let row_b = plane::row(p.b, p.format.width, y);
    if n == TILE_SIDE {
        S::piece(&row_a[x..x + TILE_SIDE], &row_b[x..x + TILE_SIDE])
    } else {
        S::piece(&row_a[x..x + n], &row_b[x..x + n])
    }
}

// The squared error of the tile in row j and column i of tiles.
#[tactic(auto, using(crate::proofs::Sums::tile_rules), unfolding(crate::specs::Map::tile_side))]
fn tile<S: Tiled>(p: Pair<'_, S>, j: usize, i: usize) -> u64
    requires walkable { Walkable (planes S.Sample.value S.WIDE p) }
    requires j_bound { (j < tiles_along p.format.height) × (i < tiles_along p.format.width) }
    ensures { result ≡ tile_error (planes S.Sample.value S.WIDE p.entry) j i }
{
    let columns = tile_length(p.format.width, i);
    let mut sum = 0u64;
    // by index: row k of the tile is a piece of both planes
    for k in 0..tile_length(p.format.height, j) {
        sum += piece_at(p, j * TILE_SIDE + k, i * TILE_SIDE, columns);
    }
    sum
}

// Row j of tiles, into as many places.
#[tactic(auto, using(number::proofs::Lists::filled_none, number::proofs::Lists::filled_more, number::proofs::Lists::filled_all))]
fn tile_row<S: Tiled>(p: Pair<'_, S>, j: usize, row: &mut [u64])
    requires walkable { Walkable (planes S.Sample.value S.WIDE p) }
    requires j_bound { (j < tiles_along p.format.height) × (length row.old ≡ tiles_along p.format.width) }
    ensures { row.new ≡ list_to (tile_error (planes S.Sample.value S.WIDE p.entry) j) (tiles_along p.entry.format.width) }
{
    for (i, place) in row.iter_mut().enumerate() {
        *place = tile(p, j, i);
    }
}

// All rows of tiles, one after another, into as many places as there are tiles.
#[tactic(auto, using(crate::proofs::Rows::map_none, crate::proofs::Rows::map_more))]
pub fn fill<S: Tiled>(p: Pair<'_, S>, map: &mut [u64])
    requires walkable { Walkable (planes S.Sample.value S.WIDE p) }
    requires map_len { length map.old ≡ map_places (planes S.Sample.value S.WIDE p) }
    ensures { map.new ≡ map_of (planes S.Sample.value S.WIDE p.entry) }
{
    let across = tiles_along(p.format.width);
    // by index: after `chunks_mut` a proof knows no place of the map
    for j in 0..tiles_along(p.format.height) {
        let from = j * across;
        tile_row(p, j, &mut map[from..from + across]);
    }
}

// The lowest of 1 2 4 5 6 8 that applies. `lent` is how many places there are.
#[tactic(auto, using(plane::proofs::Accept::accepted))]
pub fn check<S: Stored>(p: Pair<'_, S>, lent: usize) -> Result<(), Refusal>
    ensures { result ≡ map_refusal (planes S.Sample.value S.WIDE p.entry) lent }
{
    plane::check(p, 0)?;
    if lent < places(p.format.width, p.format.height) {
        return Err(Refusal::Scratch);
    }
    Ok(())
}
