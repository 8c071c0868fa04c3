// One block of 8 by 8 of each plane: its samples are read, and its error is added.
ghost use Rattle.std.specs.Prelude.{◌≡◌, ◌+◌, ◌<◌, ◌^◌};
ghost use Rattle.plane.specs.Plane.{sample_limit};
ghost use Rattle.plane.specs.Inner.Seen.{sized, seen, planes};
ghost use Rattle.plane.specs.Inner.Lawful.{Bounded, BoundedPair};
ghost use Rattle.dct.specs.Limits.{block_side};
ghost use Rattle.psnr_hvs.specs.Score.{block_at, with_blocks};
ghost use Rattle.psnr_hvs.specs.Inner.Blocks.{BlockFits};

use dct::{BLOCK_SIDE, BLOCK_SIZE};
use hvs_block::tables::Tables;
use plane::{Pair, Plane, Sample, Stored};

// The block whose first sample is (x, y), of a plane that reaches to its last.
fn loaded<S: Sample>(p: Plane<'_, S>, x: usize, y: usize) -> [i32; BLOCK_SIZE]
    requires rows { y + block_side < 2 ^ 64 }
    requires bounded { Bounded sample_limit (x + block_side) (y + block_side) (seen S.value p) }
    ensures { result ≡ block_at (seen S.value p.entry) x y }
{
    let mut out = [0i32; BLOCK_SIZE];
    for (k, place) in out.iter_mut().enumerate() {
        let row = y + k / BLOCK_SIDE;
        let column = x + k % BLOCK_SIDE;
        *place = p.samples[row * p.stride + column].value() as i32;
    }
    out
}

// The blocks of both planes whose first sample is (x, y), added to `so_far`.
pub fn block_at<S: Stored>(p: Pair<'_, S>, x: usize, y: usize, tables: &Tables, so_far: f64) -> f64
    requires block_fits { BlockFits (sized S.WIDE p.format) x y }
    requires bounded_pair { BoundedPair sample_limit (planes S.Sample.value S.WIDE p) }
    ensures { result ≡ with_blocks (planes S.Sample.value S.WIDE p.entry) x y tables.now.csf tables.now.mask so_far }
{
    let p1 = loaded(p.a, x, y);
    let p2 = loaded(p.b, x, y);
    hvs_block::block::with_block(&p1, &p2, tables, so_far)
}
