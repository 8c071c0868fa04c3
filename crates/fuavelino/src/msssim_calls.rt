// MS-SSIM for other languages. `pairs` is written where the answer is 0, and as it was otherwise: ssim and cs of the first scale, which
// is the planes themselves, then of the second, and so on.
ghost use Rattle.std.specs.Prelude.{◌≡◌, true, false};
ghost use Rattle.refusal.specs.First.{answer_number};
ghost use Rattle.fuavelino.specs.Called.{called};
ghost use Rattle.msssim.specs.Scratch.{scratch_of};
ghost use Rattle.msssim.specs.Answer.{msssim_of, scratch_after};
ghost use Rattle.fuavelino.specs.Msssim.{pairs_written};

use crate::pair;
use msssim::SCALES;
use refusal::Refusal;
use ssim::Ssim;

// Writes the pairs where there are some.
fn put_pairs(answer: Result<[Ssim; SCALES], Refusal>, pairs: &mut [f64; 10]) -> u8
    ensures value { result ≡ answer_number answer }
    ensures pairs_after { pairs.new ≡ pairs_written answer pairs.old }
{
    match answer {
        Ok(scales) => {
            let [one, two, three, four, five] = scales;
            *pairs = [
                one.ssim, one.cs, two.ssim, two.cs, three.ssim, three.cs, four.ssim, four.cs,
                five.ssim, five.cs,
            ];
            0
        }
        Err(no) => no.number(),
    }
}

// MS-SSIM of two planes of bytes: 0, or the lowest of 1 2 3 4 5 6 8 9.
#[tactic(auto, using(crate::proofs::Called::called_is))]
#[unsafe(no_mangle)]
pub extern "C" fn fuavelino_msssim8(
    a: &[u8],
    b: &[u8],
    width: usize,
    height: usize,
    stride_a: usize,
    stride_b: usize,
    depth: u32,
    scratch: &mut [i64],
    a32: &mut [u32],
    b32: &mut [u32],
    pairs: &mut [f64; 10],
) -> u8
    ensures value { result ≡ answer_number (msssim_of (called false a.entry b.entry width height stride_a stride_b depth)
        (scratch_of scratch.old a32.old b32.old)) }
    ensures b32_value { scratch_of scratch.new a32.new b32.new ≡ scratch_after (called false a.entry b.entry
        width height stride_a stride_b depth) (scratch_of scratch.old a32.old b32.old) }
    ensures pairs_after { pairs.new ≡ pairs_written
        (msssim_of (called false a.entry b.entry width height stride_a stride_b depth)
        (scratch_of scratch.old a32.old b32.old)) pairs.old }
{
    let answer = msssim::msssim(
        pair(a, b, width, height, stride_a, stride_b, depth),
        scratch,
        a32,
        b32,
    );
    put_pairs(answer, pairs)
}

// The same of words.
#[tactic(auto, using(crate::proofs::Called::called_is))]
#[unsafe(no_mangle)]
pub extern "C" fn fuavelino_msssim16(
    a: &[u16],
    b: &[u16],
    width: usize,
    height: usize,
    stride_a: usize,
    stride_b: usize,
    depth: u32,
    scratch: &mut [i64],
    a32: &mut [u32],
    b32: &mut [u32],
    pairs: &mut [f64; 10],
) -> u8
    ensures value { result ≡ answer_number (msssim_of (called true a.entry b.entry width height stride_a stride_b depth)
        (scratch_of scratch.old a32.old b32.old)) }
    ensures b32_value { scratch_of scratch.new a32.new b32.new ≡ scratch_after (called true a.entry b.entry
        width height stride_a stride_b depth) (scratch_of scratch.old a32.old b32.old) }
    ensures pairs_after { pairs.new ≡ pairs_written
        (msssim_of (called true a.entry b.entry width height stride_a stride_b depth)
        (scratch_of scratch.old a32.old b32.old)) pairs.old }
{
    let answer = msssim::msssim(
        pair(a, b, width, height, stride_a, stride_b, depth),
        scratch,
        a32,
        b32,
    );
    put_pairs(answer, pairs)
}
