// Squared error of two planes, the record that keeps it, and a series of records; after psnr.rs. SCOPE, "Squared error".
#![tactic(auto)]

ghost use Rattle.std.specs.Prelude.{◌≡◌};
ghost use Rattle.plane.specs.Inner.Seen.{planes};
ghost use Rattle.psnr.specs.Squared.{squared_error_of};
ghost use Rattle.psnr.specs.Series.{series_of};
ghost use Rattle.psnr.specs.Inner.Fold.{rises, run_with, run_start, run_step, run_finish};

use plane::Pair;
use refusal::Refusal;
use walk::Compared;

pub mod judge;
pub mod walk;

// The most records of a series.
pub const RECORD_LIMIT: u64 = 65536;
// The largest total: up to it the double is exact.
pub const TOTAL_LIMIT: u64 = number::EXACT_LIMIT;

// What a comparison of two planes leaves, and whose they are. The error is a whole number, and exact.
#[repr(C)]
#[derive(Clone, Copy, Debug, PartialEq)]
pub struct Record {
    pub sq_err: f64,
    pub n: u64,
    pub sample_max: u32,
    pub frame: u32,
    pub plane: u32,
}

// A squared error. Identical says "identical, 100" beside its record.
#[derive(Clone, Copy, Debug, PartialEq)]
pub enum SquaredError {
    Differs(Record),
    Identical(Record),
}

// The errors and counts of a series, under its one max.
#[derive(Clone, Copy, Debug, PartialEq)]
pub struct Total {
    pub sq_err: f64,
    pub n: u64,
    pub sample_max: u32,
}

// A series summed up. Identical says "identical, 100" beside its total.
#[derive(Clone, Copy, Debug, PartialEq)]
pub enum Summed {
    Differs(Total),
    Identical(Total),
}

// A series so far, in whole numbers: how many records, what they add up to, and the last one's frame and plane. An error above
// TOTAL_LIMIT is kept as one above it.
#[derive(Clone, Copy, Debug, PartialEq, Eq)]
pub struct Tally {
    pub records: u64,
    pub error: u64,
    pub n: u64,
    pub sample_max: u32,
    pub frame: u32,
    pub plane: u32,
}

// No record yet; sound ones only; or one among them that is bad, out of order or too many.
#[derive(Clone, Copy, Debug, PartialEq, Eq)]
pub enum Run {
    Empty,
    Sound(Tally),
    Spoiled,
}

// The squared error of two planes, recorded as that of this plane of this frame. 6 is judged on the walk, and 10 after it.
pub fn squared_error<S: Compared>(
    p: Pair<'_, S>,
    frame: u32,
    plane: u32,
) -> Result<SquaredError, Refusal>
    ensures { result ≡ squared_error_of (planes S.Sample.value S.WIDE p.entry) frame plane }
{
    plane::check_unread(p, 0)?;
    let error = walk::rows(p)?;
    let suits = judge::plane_suits(plane);
    if !suits {
        return Err(Refusal::Record);
    }
    let record = Record {
        sq_err: number::exact(error),
        n: (p.format.width * p.format.height) as u64,
        sample_max: plane::sample_max(p.format.depth),
        frame,
        plane,
    };
    if error == 0 {
        Ok(SquaredError::Identical(record))
    } else {
        Ok(SquaredError::Differs(record))
    }
}

// Whether the record comes after the last one, where there is one.
#[tactic(auto, unfolding(crate::specs::Inner::Fold::rises))]
fn rises(t: Tally, r: Record) -> bool
    ensures { result ≡ rises t r }
{
    t.records == 0 || judge::is_earlier(t.frame, t.plane, r.frame, r.plane)
}

// One record more, whatever the tally so far may be.
#[tactic(auto, unfolding(crate::specs::Inner::Fold::run_with, crate::specs::Limits::record_limit, crate::specs::Limits::count_limit, crate::specs::Limits::total_limit))]
pub fn add_record(t: Tally, r: Record) -> Run
    ensures { result ≡ run_with t r }
{
    if t.records >= RECORD_LIMIT {
        return Run::Spoiled;
    }
    if !judge::joins(t.sample_max, r) {
        return Run::Spoiled;
    }
    if !rises(t, r) {
        return Run::Spoiled;
    }
    Run::Sound(Tally {
        records: t.records + 1,
        error: judge::capped_sum(t.error, r.sq_err as u64, TOTAL_LIMIT + 1),
        n: judge::capped_sum(t.n, r.n, RECORD_LIMIT * judge::COUNT_LIMIT),
        sample_max: t.sample_max,
        frame: r.frame,
        plane: r.plane,
    })
}

// A series of no records.
pub fn start() -> Run
    ensures { result ≡ run_start }
{
    Run::Empty
}

// A series with one record more. What is spoiled stays so: the walk over a run then has no branch but its own.
#[tactic(auto, unfolding(crate::specs::Inner::Fold::run_step))]
pub fn step(s: Run, r: Record) -> Run
    ensures { result ≡ run_step s r }
{
    match s {
        Run::Empty => add_record(
            Tally {
                records: 0,
                error: 0,
                n: 0,
                sample_max: r.sample_max,
                frame: 0,
                plane: 0,
            },
            r,
        ),
        Run::Sound(t) => add_record(t, r),
        Run::Spoiled => Run::Spoiled,
    }
}

// What the series answers once its last record has come.
#[tactic(auto, unfolding(crate::specs::Limits::total_limit, crate::specs::Inner::Fold::run_finish))]
pub fn finish(s: Run) -> Result<Summed, Refusal>
    ensures { result ≡ run_finish s }
{
    match s {
        Run::Sound(t) => {
            if t.error > TOTAL_LIMIT {
                return Err(Refusal::Total);
            }
            let total = Total {
                sq_err: number::exact(t.error),
                n: t.n,
                sample_max: t.sample_max,
            };
            if t.error == 0 {
                Ok(Summed::Identical(total))
            } else {
                Ok(Summed::Differs(total))
            }
        }
        Run::Empty | Run::Spoiled => Err(Refusal::Record),
    }
}

// The total of a lent run of records.
pub fn series(records: &[Record]) -> Result<Summed, Refusal>
    ensures { result ≡ series_of records.now }
{
    finish(records.iter().copied().fold(start(), step))
}
