// A plane in lent 32-bit places: its samples are widened into them, and each scale is summed there in place from the one above.
#![tactic(auto)]

ghost use Rattle.std.specs.Prelude.{◌≡◌, ℕ, ◌+◌, ◌*◌, ◌/◌, ◌<◌, ◌≤◌, ◌^◌, length, map, replicate};
ghost use Rattle.plane.specs.Limits.{side_limit};
ghost use Rattle.plane.specs.Plane.{at, plane_of, sample_at, needed};
ghost use Rattle.plane.specs.Inner.Seen.{seen};
ghost use Rattle.plane.specs.Inner.Lawful.{Bounded};
ghost use Rattle.window.specs.Moments.{most_sample};
ghost use Rattle.downscale.specs.Summed.{summed_of};
ghost use Rattle.downscale.specs.Inner.Longs.{Put, Filled, sum2x2};

use plane::{Plane, Sample};

// One row of samples to the places from `to` on.
#[tactic(auto, using(crate::proofs::Stored::row_put, crate::proofs::Stored::row_read))]
fn widen_row<S: Sample>(row: &[S], to: usize, longs: &mut [u32])
    requires { to + length row.now ≤ length longs.old }
    ensures { Put longs.old longs.new to (length row.now) (at (map S.value row.now)) }
{
    for (x, place) in longs[to..to + row.len()].iter_mut().enumerate() {
        *place = row[x].value();
    }
}

// A plane to the places, row after row with no padding.
pub fn widen<S: Sample>(p: Plane<'_, S>, width: usize, height: usize, longs: &mut [u32])
    requires long { needed width height p.stride ≤ length (map S.value p.samples.now) }
    requires width_in_bounds { height * width ≤ length longs.old }
    ensures { Filled longs.old longs.new width (sample_at (seen S.value p.entry)) height }
{
    // by index: a row begins at y strides among the samples and at y widths among the places
    for y in 0..height {
        widen_row(plane::row(p, width, y), y * width, longs);
    }
}

// The sum of the 2×2 samples whose first stands at place i, in rows of `width`.
fn sum_2x2(longs: &[u32], width: usize, i: usize) -> u32
    requires { (i + width + 1 < length longs.now) × (sum2x2 longs.now width i < 2 ^ 32) }
    ensures { result ≡ sum2x2 longs.now width i }
{
    longs[i] + longs[i + 1] + longs[i + width] + longs[i + width + 1]
}

// Row j of the scale below. Its place c comes no later than the 2×2 samples that it is made of, so none of them is overwritten before
// it is read.
#[tactic(auto, using(plane::proofs::Limits::side_small, crate::proofs::Stored::put_more, crate::proofs::Summed::half_le, crate::proofs::Summed::sum_same))]
fn sum_row(longs: &mut [u32], width: usize, j: usize)
    requires j_bound { (2 * j + 2 ≤ side_limit) × ((2 * j + 2) * width ≤ length longs.old) }
    requires by_index { (c : ℕ) → c < width / 2 → summed_of (sample_at (plane_of longs.old width)) j c < 2 ^ 32 }
    ensures { Put longs.old longs.new (j * (width / 2)) (width / 2)
        (summed_of (sample_at (plane_of longs.old width)) j) }
{
    let half = width / 2;
    let to = j * half;
    let top = 2 * j * width;
    // by index: the places are written where others of them are still read
    for c in 0..half {
        longs[to + c] = sum_2x2(longs, width, top + 2 * c);
    }
}

// The scale below, in place: row after row, each of half as many places.
#[tactic(auto, using(crate::proofs::Stored::filled_more, crate::proofs::Summed::sum_still))]
pub fn downscale(longs: &mut [u32], width: usize, height: usize)
    requires { (height ≤ side_limit) × Bounded most_sample width height (plane_of longs.old width) }
    ensures { Filled longs.old longs.new (width / 2)
        (summed_of (sample_at (plane_of longs.old width))) (height / 2) }
{
    // by index: as in `sum_row`, of which a row is a part
    for j in 0..height / 2 {
        sum_row(longs, width, j);
    }
}

// Every place to 0.
pub fn clear(longs: &mut [u32])
    ensures { longs.new ≡ replicate (length longs.old) 0 }
{
    longs.fill(0);
}
