// Plain SSIM for other languages. `ssim` and `cs` are written where the answer is 0, and as they were otherwise.
ghost use Rattle.std.specs.Prelude.{◌≡◌, true, false};
ghost use Rattle.refusal.specs.First.{answer_number};
ghost use Rattle.fuavelino.specs.Called.{called};
ghost use Rattle.plain.specs.Plain.{plain_of};
ghost use Rattle.fuavelino.specs.Ssim.{ssim_written, cs_written};

use crate::pair;
use crate::ssim_calls::put_pair;

// SSIM of two planes of bytes with no scratch: 0, or the lowest of 1 2 4 5 6 7 9.
#[tactic(auto, using(crate::proofs::Called::called_is))]
#[unsafe(no_mangle)]
pub extern "C" fn fuavelino_plain_ssim8(
    a: &[u8],
    b: &[u8],
    width: usize,
    height: usize,
    stride_a: usize,
    stride_b: usize,
    depth: u32,
    kernel: &[u16],
    ssim: &mut f64,
    cs: &mut f64,
) -> u8
    ensures value { result ≡ answer_number
        (plain_of (called false a.entry b.entry width height stride_a stride_b depth) kernel.now) }
    ensures ssim_after { (ssim.new ≡ ssim_written
        (plain_of (called false a.entry b.entry width height stride_a stride_b depth) kernel.now) ssim.old)
        × (cs.new ≡ cs_written
        (plain_of (called false a.entry b.entry width height stride_a stride_b depth) kernel.now) cs.old) }
{
    let answer = plain::score(pair(a, b, width, height, stride_a, stride_b, depth), kernel);
    put_pair(answer, ssim, cs)
}

// The same of words.
#[tactic(auto, using(crate::proofs::Called::called_is))]
#[unsafe(no_mangle)]
pub extern "C" fn fuavelino_plain_ssim16(
    a: &[u16],
    b: &[u16],
    width: usize,
    height: usize,
    stride_a: usize,
    stride_b: usize,
    depth: u32,
    kernel: &[u16],
    ssim: &mut f64,
    cs: &mut f64,
) -> u8
    ensures value { result ≡ answer_number
        (plain_of (called true a.entry b.entry width height stride_a stride_b depth) kernel.now) }
    ensures ssim_after { (ssim.new ≡ ssim_written
        (plain_of (called true a.entry b.entry width height stride_a stride_b depth) kernel.now) ssim.old)
        × (cs.new ≡ cs_written
        (plain_of (called true a.entry b.entry width height stride_a stride_b depth) kernel.now) cs.old) }
{
    let answer = plain::score(pair(a, b, width, height, stride_a, stride_b, depth), kernel);
    put_pair(answer, ssim, cs)
}
