// PSNR-HVS of two planes, after `calculate_plane_psnr_hvs`: SCOPE, "HVS, SSIM and scales".
#![tactic(auto)]

mod block;

// A caller names the kind of a plane as `psnr_hvs::Kind`.
ghost use Rattle.std.specs.Prelude.{◌≡◌, ◌+◌, ◌≤◌};
ghost use Rattle.plane.specs.Plane.{sample_limit};
ghost use Rattle.plane.specs.Inner.Seen.{planes};
ghost use Rattle.plane.specs.Inner.Lawful.{BoundedPair, AcceptedPair};
ghost use Rattle.dct.specs.Limits.{block_side};
ghost use Rattle.psnr_hvs.specs.Score.{blocks_per_side, along_row, down_rows};
ghost use Rattle.psnr_hvs.specs.Score.{hvs_score, hvs_of};

use dct::{BLOCK_SIDE, BLOCK_SIZE};
pub use hvs_block::Kind;
use hvs_block::tables::Tables;
use plane::{Pair, Stored};
use refusal::Refusal;

// The step from one block to the next.
const STEP: usize = 7;

// How many blocks stand beside each other on a side.
fn blocks_per_side(side: usize) -> usize
    requires { block_side ≤ side }
    ensures { result ≡ blocks_per_side side }
{
    (side - BLOCK_SIDE) / STEP + 1
}

// One row of blocks, which begins at row y of the planes, added to `so_far`.
fn along_row<S: Stored>(p: Pair<'_, S>, y: usize, tables: &Tables, so_far: f64) -> f64
    requires block_side_le_width { (block_side ≤ p.format.width) × (y + block_side ≤ p.format.height) }
    requires bounded_pair { BoundedPair sample_limit (planes S.Sample.value S.WIDE p) }
    ensures { result ≡ along_row (planes S.Sample.value S.WIDE p.entry) y
        tables.now.csf tables.now.mask so_far (blocks_per_side p.entry.format.width) }
{
    let n = blocks_per_side(p.format.width);
    let mut s = so_far;
    // by number: a block stands seven samples after the one before, and no list holds them
    for x in 0..n {
        s = block::block_at(p, STEP * x, y, tables, s);
    }
    s
}

// Every row of blocks.
fn down_rows<S: Stored>(p: Pair<'_, S>, tables: &Tables) -> f64
    requires block_side_le_width { (block_side ≤ p.format.width) × (block_side ≤ p.format.height) }
    requires bounded_pair { BoundedPair sample_limit (planes S.Sample.value S.WIDE p) }
    ensures { result ≡ down_rows (planes S.Sample.value S.WIDE p.entry)
        tables.now.csf tables.now.mask (blocks_per_side p.entry.format.height) }
{
    let n = blocks_per_side(p.format.height);
    let mut s = 0.0;
    // by number: as in `along_row`
    for y in 0..n {
        s = along_row(p, STEP * y, tables, s);
    }
    s
}

// The score of two planes that no test refuses.
fn score<S: Stored>(p: Pair<'_, S>, kind: Kind) -> f64
    requires { AcceptedPair (planes S.Sample.value S.WIDE p) block_side }
    ensures { result ≡ hvs_score (planes S.Sample.value S.WIDE p.entry) kind }
{
    let tables = hvs_block::tables::tables_of(kind);
    let sum = down_rows(p, &tables);
    let blocks = (blocks_per_side(p.format.width) * blocks_per_side(p.format.height)) as u64;
    let max = plane::sample_max(p.format.depth) as u64;
    sum / number::exact(BLOCK_SIZE as u64 * blocks) / number::exact(max * max)
}

// The score of two planes, or the lowest refusal that applies.
#[tactic(auto, unfolding(crate::specs::Score::hvs_of))]
pub fn psnr_hvs<S: Stored>(p: Pair<'_, S>, kind: Kind) -> Result<f64, Refusal>
    ensures { result ≡ hvs_of (planes S.Sample.value S.WIDE p.entry) kind }
{
    plane::check(p, BLOCK_SIDE)?;
    let s = score(p, kind);
    if number::finite(s) {
        Ok(s)
    } else {
        Err(Refusal::NotFinite)
    }
}
