// PSNR-HVS for other languages: one call for each kind of plane and each width, so that no fourth kind can be asked for. `score` is
// written where the answer is 0, and as it was otherwise.
ghost use Rattle.std.specs.Prelude.{◌≡◌, true, false};
ghost use Rattle.refusal.specs.First.{answer_number};
ghost use Rattle.fuavelino.specs.Called.{called};
ghost use Rattle.hvs_block.specs.declared.Kind.TheVariants.{Luma, Cb, Cr};
ghost use Rattle.psnr_hvs.specs.Score.{hvs_of};
ghost use Rattle.fuavelino.specs.Answer.{written};

use crate::{pair, put};
use psnr_hvs::Kind;

// PSNR-HVS of two y planes of bytes: 0, or the lowest of 1 2 3 4 5 6 9.
#[tactic(auto, using(crate::proofs::Called::called_is))]
#[unsafe(no_mangle)]
pub extern "C" fn fuavelino_psnr_hvs_y8(
    a: &[u8],
    b: &[u8],
    width: usize,
    height: usize,
    stride_a: usize,
    stride_b: usize,
    depth: u32,
    score: &mut f64,
) -> u8
    ensures value { result ≡ answer_number (hvs_of (called false a.entry b.entry width height stride_a stride_b depth) Luma) }
    ensures score_after { score.new ≡ written (λ x. x) (hvs_of
        (called false a.entry b.entry width height stride_a stride_b depth) Luma) score.old }
{
    put(
        psnr_hvs::psnr_hvs(
            pair(a, b, width, height, stride_a, stride_b, depth),
            Kind::Luma,
        ),
        score,
    )
}

// The same of two u planes of bytes.
#[tactic(auto, using(crate::proofs::Called::called_is))]
#[unsafe(no_mangle)]
pub extern "C" fn fuavelino_psnr_hvs_u8(
    a: &[u8],
    b: &[u8],
    width: usize,
    height: usize,
    stride_a: usize,
    stride_b: usize,
    depth: u32,
    score: &mut f64,
) -> u8
    ensures value { result ≡ answer_number (hvs_of (called false a.entry b.entry width height stride_a stride_b depth) Cb) }
    ensures score_after { score.new ≡ written (λ x. x) (hvs_of
        (called false a.entry b.entry width height stride_a stride_b depth) Cb) score.old }
{
    put(
        psnr_hvs::psnr_hvs(
            pair(a, b, width, height, stride_a, stride_b, depth),
            Kind::Cb,
        ),
        score,
    )
}

// The same of two v planes of bytes.
#[tactic(auto, using(crate::proofs::Called::called_is))]
#[unsafe(no_mangle)]
pub extern "C" fn fuavelino_psnr_hvs_v8(
    a: &[u8],
    b: &[u8],
    width: usize,
    height: usize,
    stride_a: usize,
    stride_b: usize,
    depth: u32,
    score: &mut f64,
) -> u8
    ensures value { result ≡ answer_number (hvs_of (called false a.entry b.entry width height stride_a stride_b depth) Cr) }
    ensures score_after { score.new ≡ written (λ x. x) (hvs_of
        (called false a.entry b.entry width height stride_a stride_b depth) Cr) score.old }
{
    put(
        psnr_hvs::psnr_hvs(
            pair(a, b, width, height, stride_a, stride_b, depth),
            Kind::Cr,
        ),
        score,
    )
}

// The same of two y planes of words.
#[tactic(auto, using(crate::proofs::Called::called_is))]
#[unsafe(no_mangle)]
pub extern "C" fn fuavelino_psnr_hvs_y16(
    a: &[u16],
    b: &[u16],
    width: usize,
    height: usize,
    stride_a: usize,
    stride_b: usize,
    depth: u32,
    score: &mut f64,
) -> u8
    ensures value { result ≡ answer_number (hvs_of (called true a.entry b.entry width height stride_a stride_b depth) Luma) }
    ensures score_after { score.new ≡ written (λ x. x) (hvs_of
        (called true a.entry b.entry width height stride_a stride_b depth) Luma) score.old }
{
    put(
        psnr_hvs::psnr_hvs(
            pair(a, b, width, height, stride_a, stride_b, depth),
            Kind::Luma,
        ),
        score,
    )
}

// The same of two u planes of words.
#[tactic(auto, using(crate::proofs::Called::called_is))]
#[unsafe(no_mangle)]
pub extern "C" fn fuavelino_psnr_hvs_u16(
    a: &[u16],
    b: &[u16],
    width: usize,
    height: usize,
    stride_a: usize,
    stride_b: usize,
    depth: u32,
    score: &mut f64,
) -> u8
    ensures value { result ≡ answer_number (hvs_of (called true a.entry b.entry width height stride_a stride_b depth) Cb) }
    ensures score_after { score.new ≡ written (λ x. x) (hvs_of
        (called true a.entry b.entry width height stride_a stride_b depth) Cb) score.old }
{
    put(
        psnr_hvs::psnr_hvs(
            pair(a, b, width, height, stride_a, stride_b, depth),
            Kind::Cb,
        ),
        score,
    )
}

// The same of two v planes of words.
#[tactic(auto, using(crate::proofs::Called::called_is))]
#[unsafe(no_mangle)]
pub extern "C" fn fuavelino_psnr_hvs_v16(
    a: &[u16],
    b: &[u16],
    width: usize,
    height: usize,
    stride_a: usize,
    stride_b: usize,
    depth: u32,
    score: &mut f64,
) -> u8
    ensures value { result ≡ answer_number (hvs_of (called true a.entry b.entry width height stride_a stride_b depth) Cr) }
    ensures score_after { score.new ≡ written (λ x. x) (hvs_of
        (called true a.entry b.entry width height stride_a stride_b depth) Cr) score.old }
{
    put(
        psnr_hvs::psnr_hvs(
            pair(a, b, width, height, stride_a, stride_b, depth),
            Kind::Cr,
        ),
        score,
    )
}
