// SSIM as its definition reads: at every centre the whole window is summed afresh, with no line store and so no scratch. It is slow, and
// it is easy to check by eye; what it answers is what `ssim` answers.
#![tactic(auto)]

ghost use Rattle.std.specs.Prelude.{◌≡◌, true};
ghost use Rattle.plane.specs.Inner.Seen.{planes};
ghost use Rattle.plane.specs.Inner.Lawful.{AcceptedPair};
ghost use Rattle.kernel.specs.Kernel.{lent_total, lawful};
ghost use Rattle.ssim.specs.Answer.{ssim_score};
ghost use Rattle.plain.specs.Plain.{plain_refusal, plain_of};

use plane::{Pair, Stored};
use refusal::Refusal;
use ssim::Ssim;

mod sums;
mod walk;

// The lowest of 1 2 4 5 6 7 that applies.
fn check<S: Stored>(p: Pair<'_, S>, kernel: &[u16]) -> Result<(), Refusal>
    ensures { result ≡ plain_refusal (planes S.Sample.value S.WIDE p.entry) kernel.now }
{
    plane::check(p, 0)?;
    if !kernel::is_lawful(kernel) {
        return Err(Refusal::Kernel);
    }
    Ok(())
}

// The score of two planes that no test refuses.
#[tactic(auto, using(plane::proofs::Depth::depth_small))]
fn scored<S: Stored>(p: Pair<'_, S>, kernel: &[u16]) -> Result<Ssim, Refusal>
    requires accepted_pair { AcceptedPair (planes S.Sample.value S.WIDE p) 0 }
    requires kernel_value { lawful lent_total kernel.now ≡ true }
    ensures { result ≡ ssim_score (planes S.Sample.value S.WIDE p.entry) kernel.now }
{
    let max2 = ssim::centre::squared(plane::sample_max(p.format.depth));
    ssim::centre::pair(walk::totals(p, kernel, max2))
}

// SSIM of two planes, or the lowest refusal that applies.
pub fn score<S: Stored>(p: Pair<'_, S>, kernel: &[u16]) -> Result<Ssim, Refusal>
    ensures { result ≡ plain_of (planes S.Sample.value S.WIDE p.entry) kernel.now }
{
    check(p, kernel)?;
    scored(p, kernel)
}
