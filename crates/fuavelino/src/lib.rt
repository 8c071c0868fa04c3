// The face: what other languages link. A call answers 0 where it accepts, or the number of its refusal, and writes its results to
// places that the caller lends; any numbers may be passed. What another language must see to, since no proof reaches it: pointers are
// not null, aligned and have what their counts promise, and what is written overlaps nothing else (include/fuavelino.h).
#![tactic(auto)]

ghost use Rattle.std.specs.Prelude.{◌≡◌, true, false, Result};
ghost use Rattle.refusal.specs.declared.Refusal.{Refusal};
ghost use Rattle.refusal.specs.First.{answer_number};
ghost use Rattle.number.specs.Root.{root_of};
ghost use Rattle.fuavelino.specs.Called.{called};
ghost use Rattle.plane.specs.Tests.{pair_refusal};
ghost use Rattle.fuavelino.specs.Answer.{written};
ghost use Rattle.fuavelino.specs.Version.{version};

pub mod better_calls;
pub mod combine_calls;
pub mod dct_calls;
pub mod decibels_calls;
pub mod hvs_calls;
pub mod kernel_calls;
pub mod locate_calls;
pub mod msssim_calls;
pub mod places;
pub mod plain_calls;
pub mod psnr_calls;
pub mod rows_calls;
pub mod ssim_calls;

use plane::{Format, Pair, Plane};
use refusal::Refusal;

// The version: 0.1.0.
const MAJOR: u32 = 0;

const MINOR: u32 = 1;

const PATCH: u32 = 0;

// The version as one number, so that a caller can compare it with the one that it was written for.
#[unsafe(no_mangle)]
pub extern "C" fn fuavelino_version() -> u32
    ensures { result ≡ version }
{
    10000 * MAJOR + 100 * MINOR + PATCH
}

// A plane of a call.
fn plane_of<'a, S>(samples: &'a [S], stride: usize) -> Plane<'a, S>
    ensures { result ≡ (record { samples = samples.entry; stride = stride }) }
{
    Plane { samples, stride }
}

// The two planes of a call, whose parameters come one by one.
fn pair<'a, S>(
    a: &'a [S],
    b: &'a [S],
    width: usize,
    height: usize,
    stride_a: usize,
    stride_b: usize,
    depth: u32,
) -> Pair<'a, S>
    ensures { result ≡ (record {
      format = record { width = width; height = height; depth = depth };
      a = record { samples = a.entry; stride = stride_a };
      b = record { samples = b.entry; stride = stride_b };
    }) }
{
    let format = Format {
        width,
        height,
        depth,
    };
    Pair {
        format,
        a: plane_of(a, stride_a),
        b: plane_of(b, stride_b),
    }
}

// Writes an answer that is one number, where there is one: 0, or the number of the refusal.
fn put<T: Copy>(answer: Result<T, Refusal>, out: &mut T) -> u8
    ensures value { result ≡ answer_number answer }
    ensures out_after { out.new ≡ written (λ x. x) answer out.old }
{
    match answer {
        Ok(x) => {
            *out = x;
            0
        }
        Err(no) => no.number(),
    }
}

// The number of an answer that is nothing but its refusal.
fn number_of(answer: Result<(), Refusal>) -> u8
    ensures { result ≡ answer_number answer }
{
    match answer {
        Ok(()) => 0,
        Err(no) => no.number(),
    }
}

// The square root of x, written to `out`; 12 where x is not +0 or positive and finite, and `out` is as it was.
#[unsafe(no_mangle)]
pub extern "C" fn fuavelino_root(x: f64, out: &mut f64) -> u8
    ensures value { result ≡ answer_number (root_of x) }
    ensures out_after { out.new ≡ written (λ x. x) (root_of x) out.old }
{
    put(number::root(x), out)
}

// The lowest of 1 to 6 that applies to two planes of bytes, or 0. `least` is the least side that the caller takes, 0 where it takes any.
#[tactic(auto, using(crate::proofs::Called::called_is))]
#[unsafe(no_mangle)]
pub extern "C" fn fuavelino_check8(
    a: &[u8],
    b: &[u8],
    width: usize,
    height: usize,
    stride_a: usize,
    stride_b: usize,
    depth: u32,
    least: usize,
) -> u8
    ensures { result ≡ answer_number (pair_refusal (called false a.entry b.entry width height stride_a stride_b depth) least) }
{
    number_of(plane::check(pair(a, b, width, height, stride_a, stride_b, depth), least))
}

// The same of words.
#[tactic(auto, using(crate::proofs::Called::called_is))]
#[unsafe(no_mangle)]
pub extern "C" fn fuavelino_check16(
    a: &[u16],
    b: &[u16],
    width: usize,
    height: usize,
    stride_a: usize,
    stride_b: usize,
    depth: u32,
    least: usize,
) -> u8
    ensures { result ≡ answer_number (pair_refusal (called true a.entry b.entry width height stride_a stride_b depth) least) }
{
    number_of(plane::check(pair(a, b, width, height, stride_a, stride_b, depth), least))
}
