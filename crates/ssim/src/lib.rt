// SSIM of two planes under a lent kernel, after `calculate_plane_ssim_internal`: the double steps at a centre, the walk over the
// centres, and the calls for bytes and for words.
#![tactic(auto)]

ghost use Rattle.std.specs.Prelude.{◌≡◌, ◌*◌, ◌<◌, ◌≤◌, pos, length};
ghost use Rattle.plane.specs.Limits.{side_limit};
ghost use Rattle.plane.specs.Inner.Seen.{planes};
ghost use Rattle.kernel.specs.Kernel.{most_taps};
ghost use Rattle.ssim.specs.Scratch.{doubled_below, next_power, scratch_places, cleared};
ghost use Rattle.ssim.specs.Answer.{ssim_refusal, ssim_score, ssim_of, scratch_after};
ghost use Rattle.ssim.specs.Inner.Sound.{Sound};

use plane::{Pair, Stored};
use refusal::Refusal;

pub mod centre;
pub mod walk;

// What SSIM gives.
#[derive(Clone, Copy, Debug, PartialEq)]
pub struct Ssim {
    pub ssim: f64,
    pub cs: f64,
}

// The running sums over the centres.
#[derive(Clone, Copy, Debug, Default, PartialEq)]
pub struct Totals {
    pub ssim: f64,
    pub cs: f64,
    pub ssimw: f64,
}

// The least power of two not below the count of taps.
#[tactic(auto, using(kernel::proofs::Says::taps_room, crate::proofs::Powers::least_power))]
pub fn next_power(taps: usize) -> usize
    requires { (1 ≤ taps) × (taps ≤ most_taps) }
    ensures { result ≡ next_power taps }
{
    taps.next_power_of_two()
}

// The places of scratch that a kernel of so many taps needs.
#[tactic(auto, using(plane::proofs::Limits::side_small, crate::proofs::Powers::places_room))]
pub fn scratch_places(width: usize, taps: usize) -> usize
    requires { (1 ≤ taps) × (taps ≤ most_taps) × (width ≤ side_limit) }
    ensures { result ≡ scratch_places width taps }
{
    6 * width * next_power(taps)
}

// The lowest of 1 2 4 5 6 7 8 that applies. `lent` is how many places of scratch there are.
fn check<S: Stored>(p: Pair<'_, S>, kernel: &[u16], lent: usize) -> Result<(), Refusal>
    ensures { result ≡ ssim_refusal (planes S.Sample.value S.WIDE p.entry) kernel.now lent }
{
    plane::check(p, 0)?;
    if !kernel::is_lawful(kernel) {
        return Err(Refusal::Kernel);
    }
    if lent < scratch_places(p.format.width, kernel.len()) {
        return Err(Refusal::Scratch);
    }
    Ok(())
}

// The score of two planes that no test refuses. The needed part of the scratch is all zero afterwards.
#[tactic(auto, unfolding(kernel::specs::Kernel::lent_total))]
fn scored<S: Stored>(p: Pair<'_, S>, kernel: &[u16], scratch: &mut [i64]) -> Result<Ssim, Refusal>
    requires { Sound (planes S.Sample.value S.WIDE p) kernel.now (length scratch.old) }
    ensures value { result ≡ ssim_score (planes S.Sample.value S.WIDE p.entry) kernel.now }
    ensures scratch_after { scratch.new ≡ cleared (pos 0) (scratch_places p.entry.format.width (length kernel.now))
        scratch.old }
{
    let need = scratch_places(p.format.width, kernel.len());
    let max2 = centre::squared(plane::sample_max(p.format.depth));
    let t = walk::totals(p, kernel, kernel::LENT_TOTAL, max2, &mut scratch[..need]);
    centre::pair(t)
}

// SSIM of two planes, or the lowest refusal that applies. Refused, scratch is as it was; else, and at 9, its needed part is all zero and
// the rest as it was.
pub fn score<S: Stored>(
    p: Pair<'_, S>,
    kernel: &[u16],
    scratch: &mut [i64],
) -> Result<Ssim, Refusal>
    ensures value { result ≡ ssim_of (planes S.Sample.value S.WIDE p.entry) kernel.now scratch.old }
    ensures scratch_after { scratch.new ≡ scratch_after (planes S.Sample.value S.WIDE p.entry) kernel.now scratch.old }
{
    check(p, kernel, scratch.len())?;
    scored(p, kernel, scratch)
}
