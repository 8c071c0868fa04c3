// SSIM for other languages. `ssim` and `cs` are written where the answer is 0, and as they were otherwise.
ghost use Rattle.std.specs.Prelude.{◌≡◌, true, false};
ghost use Rattle.refusal.specs.First.{answer_number};
ghost use Rattle.fuavelino.specs.Called.{called};
ghost use Rattle.ssim.specs.Answer.{ssim_of, scratch_after};
ghost use Rattle.fuavelino.specs.Ssim.{ssim_written, cs_written};

use crate::pair;
use refusal::Refusal;
use ssim::Ssim;

// Writes the pair, where there is one: 0, or the number of the refusal.
pub fn put_pair(answer: Result<Ssim, Refusal>, ssim: &mut f64, cs: &mut f64) -> u8
    ensures value { result ≡ answer_number answer }
    ensures ssim_after { (ssim.new ≡ ssim_written answer ssim.old)
        × (cs.new ≡ cs_written answer cs.old) }
{
    match answer {
        Ok(pair) => {
            *ssim = pair.ssim;
            *cs = pair.cs;
            0
        }
        Err(no) => no.number(),
    }
}

// SSIM of two planes of bytes under a lent kernel: 0, or the lowest of 1 2 4 5 6 7 8 9.
#[tactic(auto, using(crate::proofs::Called::called_is))]
#[unsafe(no_mangle)]
pub extern "C" fn fuavelino_ssim8(
    a: &[u8],
    b: &[u8],
    width: usize,
    height: usize,
    stride_a: usize,
    stride_b: usize,
    depth: u32,
    kernel: &[u16],
    scratch: &mut [i64],
    ssim: &mut f64,
    cs: &mut f64,
) -> u8
    ensures value { result ≡ answer_number (ssim_of (called false a.entry b.entry width height stride_a stride_b depth)
        kernel.now scratch.old) }
    ensures scratch_after { scratch.new ≡ scratch_after
        (called false a.entry b.entry width height stride_a stride_b depth) kernel.now scratch.old }
    ensures ssim_after { ssim.new ≡ ssim_written
        (ssim_of (called false a.entry b.entry width height stride_a stride_b depth)
        kernel.now scratch.old) ssim.old }
    ensures cs_after { cs.new ≡ cs_written
        (ssim_of (called false a.entry b.entry width height stride_a stride_b depth)
        kernel.now scratch.old) cs.old }
{
    let answer = ssim::score(
        pair(a, b, width, height, stride_a, stride_b, depth),
        kernel,
        scratch,
    );
    put_pair(answer, ssim, cs)
}

// The same of words.
#[tactic(auto, using(crate::proofs::Called::called_is))]
#[unsafe(no_mangle)]
pub extern "C" fn fuavelino_ssim16(
    a: &[u16],
    b: &[u16],
    width: usize,
    height: usize,
    stride_a: usize,
    stride_b: usize,
    depth: u32,
    kernel: &[u16],
    scratch: &mut [i64],
    ssim: &mut f64,
    cs: &mut f64,
) -> u8
    ensures value { result ≡ answer_number (ssim_of (called true a.entry b.entry width height stride_a stride_b depth)
        kernel.now scratch.old) }
    ensures scratch_after { scratch.new ≡ scratch_after
        (called true a.entry b.entry width height stride_a stride_b depth) kernel.now scratch.old }
    ensures ssim_after { ssim.new ≡ ssim_written
        (ssim_of (called true a.entry b.entry width height stride_a stride_b depth)
        kernel.now scratch.old) ssim.old }
    ensures cs_after { cs.new ≡ cs_written
        (ssim_of (called true a.entry b.entry width height stride_a stride_b depth)
        kernel.now scratch.old) cs.old }
{
    let answer = ssim::score(
        pair(a, b, width, height, stride_a, stride_b, depth),
        kernel,
        scratch,
    );
    put_pair(answer, ssim, cs)
}
