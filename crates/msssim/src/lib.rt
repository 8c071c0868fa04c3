// MS-SSIM of two planes, after `calculate_plane_msssim` without its power product: five scales, each made from the one above by summing
// 2×2 samples, and the pair of SSIM at each, under a kernel of its own.
#![tactic(auto)]

ghost use Rattle.std.specs.Prelude.{◌≡◌, ◌≤◌};
ghost use Rattle.plane.specs.Limits.{side_limit};
ghost use Rattle.plane.specs.Inner.Seen.{sized, planes};
ghost use Rattle.msssim.specs.Scratch.{scratch_of, places_needed, samples_needed, scratch_suits, all_cleared};
ghost use Rattle.msssim.specs.Answer.{msssim_refusal, msssim_score, msssim_of, scratch_after};
ghost use Rattle.msssim.specs.Inner.Sound.{Sound};

use plane::{Format, Pair, Stored};
use refusal::Refusal;
use ssim::Ssim;

mod five;
mod scale;
mod scales;

// The least side.
pub const LEAST_SIDE: usize = 16;
// How many scales there are, the planes themselves the first.
pub const SCALES: usize = 5;
// How many taps the fixed kernel has.
const TAPS: usize = 9;

// How many 64-bit places are needed: those of SSIM under a kernel of nine taps.
#[tactic(auto, unfolding(kernel::specs::Kernel::most_taps))]
pub fn places_needed(width: usize) -> usize
    requires { width ≤ side_limit }
    ensures { result ≡ places_needed width }
{
    ssim::scratch_places(width, TAPS)
}

// How many 32-bit places are needed for each plane: one to a sample.
#[tactic(auto, using(plane::proofs::Limits::area_fits))]
pub fn samples_needed(width: usize, height: usize) -> usize
    requires { (width ≤ side_limit) × (height ≤ side_limit) }
    ensures { result ≡ samples_needed width height }
{
    width * height
}

// None of the three that are lent is too short.
#[tactic(auto, unfolding(crate::specs::Scratch::scratch_suits))]
fn scratch_suits<S: Stored>(format: Format, scratch: &[i64], a32: &[u32], b32: &[u32]) -> bool
    requires { (format.width ≤ side_limit) × (format.height ≤ side_limit) }
    ensures { result ≡ scratch_suits (sized S.WIDE format) (scratch_of scratch.now a32.now b32.now) }
{
    let places = places_needed(format.width);
    let samples = samples_needed(format.width, format.height);
    (places <= scratch.len()) && (samples <= a32.len()) && (samples <= b32.len())
}

// The lowest of 1 2 3 4 5 6 8 that applies.
fn check<S: Stored>(
    p: Pair<'_, S>,
    scratch: &[i64],
    a32: &[u32],
    b32: &[u32],
) -> Result<(), Refusal>
    ensures { result ≡ msssim_refusal (planes S.Sample.value S.WIDE p.entry)
        (scratch_of scratch.now a32.now b32.now) }
{
    plane::check(p, LEAST_SIDE)?;
    if !scratch_suits::<S>(p.format, scratch, a32, b32) {
        return Err(Refusal::Scratch);
    }
    Ok(())
}

// The score of two planes that no test refuses. The needed part of the scratch is all zero afterwards, and the rest as it was.
fn score<S: Stored>(
    p: Pair<'_, S>,
    scratch: &mut [i64],
    a32: &mut [u32],
    b32: &mut [u32],
) -> Result<[Ssim; SCALES], Refusal>
    requires { Sound (planes S.Sample.value S.WIDE p) (scratch_of scratch.old a32.old b32.old) }
    ensures value { result ≡ msssim_score (planes S.Sample.value S.WIDE p.entry) }
    ensures b32_value { scratch_of scratch.new a32.new b32.new
        ≡ all_cleared (sized S.WIDE p.entry.format) (scratch_of scratch.old a32.old b32.old) }
{
    let places = places_needed(p.format.width);
    let samples = samples_needed(p.format.width, p.format.height);
    scales::score(
        p,
        &mut scratch[..places],
        &mut a32[..samples],
        &mut b32[..samples],
    )
}

// MS-SSIM of two planes: ssim and cs of each scale, the first scale first. Refused, scratch is as it was; else, and at 9, its needed
// part is all zero and the rest as it was.
pub fn msssim<S: Stored>(
    p: Pair<'_, S>,
    scratch: &mut [i64],
    a32: &mut [u32],
    b32: &mut [u32],
) -> Result<[Ssim; SCALES], Refusal>
    ensures value { result ≡ msssim_of (planes S.Sample.value S.WIDE p.entry)
        (scratch_of scratch.old a32.old b32.old) }
    ensures b32_value { scratch_of scratch.new a32.new b32.new ≡ scratch_after
        (planes S.Sample.value S.WIDE p.entry) (scratch_of scratch.old a32.old b32.old) }
{
    check(p, scratch, a32, b32)?;
    score(p, scratch, a32, b32)
}
