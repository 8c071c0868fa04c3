// The scales, from the first down to the fifth.
ghost use Rattle.std.specs.Prelude.{◌≡◌, ◌*◌, ◌^◌, ◌≤◌, pos, length, replicate};
ghost use Rattle.plane.specs.Limits.{side_limit};
ghost use Rattle.plane.specs.Plane.{plane_of, sample_at};
ghost use Rattle.plane.specs.Inner.Seen.{planes};
ghost use Rattle.plane.specs.Inner.Lawful.{Bounded};
ghost use Rattle.kernel.specs.Kernel.{fixed_kernel};
ghost use Rattle.window.specs.Moments.{most_sample};
ghost use Rattle.window.specs.Inner.Columns.{columns_of};
ghost use Rattle.msssim.specs.Scale.{scale_count, scale_of, pairs_from};
ghost use Rattle.msssim.specs.Scratch.{scratch_of};
ghost use Rattle.msssim.specs.Answer.{first_scale, msssim_score};
ghost use Rattle.msssim.specs.Inner.Sound.{Sound};

use crate::{SCALES, five, scale};
use plane::{Pair, Stored};
use refusal::Refusal;
use ssim::Ssim;

// The pairs of a scale and of those below it, a scale to a place: this one is scored, the planes are downscaled in place, and the same is
// done to what is left. `max` is the scale's largest sample. It calls itself, as the definition does: a loop would have to say what is left
// too.
fn pairs_from(
    a32: &mut [u32],
    b32: &mut [u32],
    width: usize,
    height: usize,
    max: u32,
    cols: &mut [i64],
    pairs: &mut [Ssim],
)
    requires width_le_side_limit { (width ≤ side_limit) × (height ≤ side_limit)
        × (5 * columns_of fixed_kernel width ≤ length cols.old) }
    requires left_bound { max * 4 ^ length pairs.old ≤ 4 * most_sample }
    requires bounded { Bounded max width height (plane_of a32.old width) }
    requires bounded_2 { Bounded max width height (plane_of b32.old width) }
    ensures { pairs.new ≡ pairs_from (length pairs.old) (scale_of max width height (sample_at (plane_of a32.old width))
        (sample_at (plane_of b32.old width))) }
{
    if !pairs.is_empty() {
        pairs[0] = scale::pair(scale::totals(a32, b32, width, height, max, cols));
        downscale::downscale(a32, width, height);
        downscale::downscale(b32, width, height);
        pairs_from(
            a32,
            b32,
            width / 2,
            height / 2,
            4 * max,
            cols,
            &mut pairs[1..],
        );
    }
}

// The pairs of the five scales: the planes are widened, and scored from there on.
fn five_pairs<S: Stored>(
    p: Pair<'_, S>,
    cols: &mut [i64],
    a32: &mut [u32],
    b32: &mut [u32],
) -> [Ssim; SCALES]
    requires { Sound (planes S.Sample.value S.WIDE p) (scratch_of cols.old a32.old b32.old) }
    ensures { result ≡ pairs_from scale_count (first_scale (planes S.Sample.value S.WIDE p.entry)) }
{
    let width = p.format.width;
    let height = p.format.height;
    downscale::widen(p.a, width, height, a32);
    downscale::widen(p.b, width, height, b32);
    let max = plane::sample_max(p.format.depth);
    let mut pairs = [Ssim { ssim: 0.0, cs: 0.0 }; SCALES];
    pairs_from(a32, b32, width, height, max, cols, &mut pairs);
    pairs
}

// The score of two planes that no test refuses, in scratch that is all needed: all of it is zero afterwards.
#[tactic(auto, unfolding(crate::specs::Scale::scale_count))]
pub fn score<S: Stored>(
    p: Pair<'_, S>,
    cols: &mut [i64],
    a32: &mut [u32],
    b32: &mut [u32],
) -> Result<[Ssim; SCALES], Refusal>
    requires { Sound (planes S.Sample.value S.WIDE p) (scratch_of cols.old a32.old b32.old) }
    ensures value { result ≡ msssim_score (planes S.Sample.value S.WIDE p.entry) }
    ensures cols_after { cols.new ≡ replicate (length cols.old) (pos 0) }
    ensures a32_after { a32.new ≡ replicate (length a32.old) 0 }
    ensures b32_after { b32.new ≡ replicate (length b32.old) 0 }
{
    let pairs = five_pairs(p, cols, a32, b32);
    ssim::walk::clear(cols);
    downscale::clear(a32);
    downscale::clear(b32);
    five::five(pairs)
}
