// The better of two candidates, for other languages. `sq_err` and `which` are written where the answer is 0, and as they were otherwise.
// A slice cannot be returned to another language, which has both planes in its hands: `which` tells.
ghost use Rattle.std.specs.Prelude.{◌≡◌, true, false};
ghost use Rattle.refusal.specs.First.{answer_number};
ghost use Rattle.better.specs.Better.{better_of};
ghost use Rattle.fuavelino.specs.Called.{contested};
ghost use Rattle.fuavelino.specs.Better.{smaller_written, which_written};

use crate::plane_of;
use better::Better;
use plane::Format;
use refusal::Refusal;

// The candidates by number.
const FIRST: u8 = 1;

const SECOND: u8 = 2;

// Writes the smaller error and whose it is, where there is one.
fn put_better(answer: Result<Better, Refusal>, sq_err: &mut f64, which: &mut u8) -> u8
    ensures value { result ≡ answer_number answer }
    ensures sq_err_after { (sq_err.new ≡ smaller_written answer sq_err.old)
        × (which.new ≡ which_written answer which.old) }
{
    match answer {
        Ok(Better::First(e)) => {
            *sq_err = e;
            *which = FIRST;
            0
        }
        Ok(Better::Second(e)) => {
            *sq_err = e;
            *which = SECOND;
            0
        }
        Err(no) => no.number(),
    }
}

// Which of two planes of bytes is nearer the original: 0, or the lowest of 1 2 4 5 6 that applies to any of the three.
#[tactic(auto, using(crate::proofs::Called::contest_is))]
#[unsafe(no_mangle)]
pub extern "C" fn fuavelino_better8(
    o: &[u8],
    a: &[u8],
    b: &[u8],
    width: usize,
    height: usize,
    stride_o: usize,
    stride_a: usize,
    stride_b: usize,
    depth: u32,
    sq_err: &mut f64,
    which: &mut u8,
) -> u8
    ensures value { result ≡ answer_number
        (better_of (contested false o.entry a.entry b.entry width height stride_o stride_a stride_b depth)) }
    ensures sq_err_after { (sq_err.new ≡ smaller_written
        (better_of (contested false o.entry a.entry b.entry width height stride_o stride_a stride_b depth))
        sq_err.old)
        × (which.new ≡ which_written
        (better_of (contested false o.entry a.entry b.entry width height stride_o stride_a stride_b depth))
        which.old) }
{
    let format = Format {
        width,
        height,
        depth,
    };
    let answer = better::nearer(
        format,
        plane_of(o, stride_o),
        plane_of(a, stride_a),
        plane_of(b, stride_b),
    );
    put_better(answer, sq_err, which)
}

// The same of words.
#[tactic(auto, using(crate::proofs::Called::contest_is))]
#[unsafe(no_mangle)]
pub extern "C" fn fuavelino_better16(
    o: &[u16],
    a: &[u16],
    b: &[u16],
    width: usize,
    height: usize,
    stride_o: usize,
    stride_a: usize,
    stride_b: usize,
    depth: u32,
    sq_err: &mut f64,
    which: &mut u8,
) -> u8
    ensures value { result ≡ answer_number
        (better_of (contested true o.entry a.entry b.entry width height stride_o stride_a stride_b depth)) }
    ensures sq_err_after { (sq_err.new ≡ smaller_written
        (better_of (contested true o.entry a.entry b.entry width height stride_o stride_a stride_b depth))
        sq_err.old)
        × (which.new ≡ which_written
        (better_of (contested true o.entry a.entry b.entry width height stride_o stride_a stride_b depth))
        which.old) }
{
    let format = Format {
        width,
        height,
        depth,
    };
    let answer = better::nearer(
        format,
        plane_of(o, stride_o),
        plane_of(a, stride_a),
        plane_of(b, stride_b),
    );
    put_better(answer, sq_err, which)
}
