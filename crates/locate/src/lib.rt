// Where two planes differ: the first place, and the squared error of each tile. SCOPE, "Where planes differ".
#![tactic(auto)]

ghost use Rattle.std.specs.Prelude.{◌≡◌};
ghost use Rattle.plane.specs.Inner.Seen.{planes};
ghost use Rattle.locate.specs.Where.{located_of};
ghost use Rattle.locate.specs.Map.{mapped_of, map_after};

use plane::{Pair, Stored};
use refusal::Refusal;

mod first;
pub mod map;

use map::Tiled;

// A place of a plane.
#[derive(Clone, Copy, Debug, PartialEq, Eq)]
pub struct Place {
    pub row: usize,
    pub column: usize,
}

// How many tiles lie across and down two planes.
#[derive(Clone, Copy, Debug, PartialEq, Eq)]
pub struct Tiles {
    pub across: usize,
    pub down: usize,
}

// The first place at which two planes differ, and none where they are alike. Every sample is judged before the walk may leave early.
#[tactic(auto, unfolding(crate::specs::Where::located_of))]
pub fn first_difference<S: Stored>(p: Pair<'_, S>) -> Result<Option<Place>, Refusal>
    ensures { result ≡ located_of (planes S.Sample.value S.WIDE p.entry) }
{
    plane::check(p, 0)?;
    Ok(first::first(p))
}

// The squared error of each tile of two planes, row by row, to the first places of `map`.
pub fn error_map<S: Tiled>(p: Pair<'_, S>, map: &mut [u64]) -> Result<Tiles, Refusal>
    ensures value { result ≡ mapped_of (planes S.Sample.value S.WIDE p.entry) map.old }
    ensures map_after { map.new ≡ map_after (planes S.Sample.value S.WIDE p.entry) map.old }
{
    map::check(p, map.len())?;
    let width = p.format.width;
    let height = p.format.height;
    let need = map::places(width, height);
    map::fill(p, &mut map[..need]);
    Ok(Tiles {
        across: map::tiles_along(width),
        down: map::tiles_along(height),
    })
}
