// Squared error and series of records. An accepted answer whose error is 0 says "identical, 100".
ghost use Rattle.std.specs.Prelude.{◌≡◌, true, false};
ghost use Rattle.fuavelino.specs.Called.{called};
ghost use Rattle.plane.specs.Inner.Seen.{planes};
ghost use Rattle.psnr.specs.Squared.{squared_error_of};
ghost use Rattle.psnr.specs.Series.{series_of};
ghost use Rattle.fuavelino.specs.Psnr.{error_number, error_written, series_number, series_written};

use crate::pair;
use plane::Pair;
use psnr::walk::Compared;
use psnr::{Record, SquaredError, Summed};
use refusal::Refusal;

// Writes the figures of a record where there is one.
fn put_record(
    answer: Result<SquaredError, Refusal>,
    sq_err: &mut f64,
    n: &mut u64,
    sample_max: &mut u32,
) -> u8
    ensures value { result ≡ error_number answer }
    ensures sample_max_after { record { sq_err = sq_err.new; n = n.new; sample_max = sample_max.new }
        ≡ error_written answer
        (record { sq_err = sq_err.old; n = n.old; sample_max = sample_max.old }) }
{
    match answer {
        Ok(SquaredError::Differs(r) | SquaredError::Identical(r)) => {
            *sq_err = r.sq_err;
            *n = r.n;
            *sample_max = r.sample_max;
            0
        }
        Err(no) => no.number(),
    }
}

// The squared error of two planes, as that of this plane of this frame: 0 and what is written, or the number of the refusal.
fn squared_error<S: Compared>(
    p: Pair<'_, S>,
    frame: u32,
    plane: u32,
    sq_err: &mut f64,
    n: &mut u64,
    sample_max: &mut u32,
) -> u8
    ensures value { result ≡ error_number (squared_error_of (planes S.Sample.value S.WIDE p.entry) frame plane) }
    ensures sample_max_after { record { sq_err = sq_err.new; n = n.new; sample_max = sample_max.new }
        ≡ error_written (squared_error_of (planes S.Sample.value S.WIDE p.entry) frame plane)
        (record { sq_err = sq_err.old; n = n.old; sample_max = sample_max.old }) }
{
    let answer = psnr::squared_error(p, frame, plane);
    put_record(answer, sq_err, n, sample_max)
}

// The squared error of two planes of bytes, its count of samples and their sample_max, written to the three places: the record, with the
// frame and the plane that are told.
#[tactic(auto, using(crate::proofs::Called::called_is))]
#[unsafe(no_mangle)]
pub extern "C" fn fuavelino_squared_error8(
    a: &[u8],
    b: &[u8],
    width: usize,
    height: usize,
    stride_a: usize,
    stride_b: usize,
    depth: u32,
    frame: u32,
    plane: u32,
    sq_err: &mut f64,
    n: &mut u64,
    sample_max: &mut u32,
) -> u8
    ensures value { result ≡ error_number
        (squared_error_of (called false a.entry b.entry width height stride_a stride_b depth) frame plane) }
    ensures sample_max_after { record { sq_err = sq_err.new; n = n.new; sample_max = sample_max.new }
        ≡ error_written (squared_error_of (called false a.entry b.entry width height stride_a stride_b depth) frame plane)
        (record { sq_err = sq_err.old; n = n.old; sample_max = sample_max.old }) }
{
    squared_error(
        pair(a, b, width, height, stride_a, stride_b, depth),
        frame,
        plane,
        sq_err,
        n,
        sample_max,
    )
}

// The same of words.
#[tactic(auto, using(crate::proofs::Called::called_is))]
#[unsafe(no_mangle)]
pub extern "C" fn fuavelino_squared_error16(
    a: &[u16],
    b: &[u16],
    width: usize,
    height: usize,
    stride_a: usize,
    stride_b: usize,
    depth: u32,
    frame: u32,
    plane: u32,
    sq_err: &mut f64,
    n: &mut u64,
    sample_max: &mut u32,
) -> u8
    ensures value { result ≡ error_number
        (squared_error_of (called true a.entry b.entry width height stride_a stride_b depth) frame plane) }
    ensures sample_max_after { record { sq_err = sq_err.new; n = n.new; sample_max = sample_max.new }
        ≡ error_written (squared_error_of (called true a.entry b.entry width height stride_a stride_b depth) frame plane)
        (record { sq_err = sq_err.old; n = n.old; sample_max = sample_max.old }) }
{
    squared_error(
        pair(a, b, width, height, stride_a, stride_b, depth),
        frame,
        plane,
        sq_err,
        n,
        sample_max,
    )
}

// Writes a total where there is one.
fn put_total(
    answer: Result<Summed, Refusal>,
    sq_err: &mut f64,
    n: &mut u64,
    sample_max: &mut u32,
) -> u8
    ensures { (result ≡ series_number answer)
        × (record { sq_err = sq_err.new; n = n.new; sample_max = sample_max.new }
        ≡ series_written answer
        (record { sq_err = sq_err.old; n = n.old; sample_max = sample_max.old })) }
{
    match answer {
        Ok(Summed::Differs(t) | Summed::Identical(t)) => {
            *sq_err = t.sq_err;
            *n = t.n;
            *sample_max = t.sample_max;
            0
        }
        Err(no) => no.number(),
    }
}

// The total of a run of records: its error, its count of samples and its one sample_max, written to the three places.
#[unsafe(no_mangle)]
pub extern "C" fn fuavelino_series(
    records: &[Record],
    sq_err: &mut f64,
    n: &mut u64,
    sample_max: &mut u32,
) -> u8
    ensures { (result ≡ series_number (series_of records.now))
        × (record { sq_err = sq_err.new; n = n.new; sample_max = sample_max.new }
        ≡ series_written (series_of records.now)
        (record { sq_err = sq_err.old; n = n.old; sample_max = sample_max.old })) }
{
    let answer = psnr::series(records);
    put_total(answer, sq_err, n, sample_max)
}
