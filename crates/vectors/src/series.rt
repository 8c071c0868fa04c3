// Series of records at SCOPE's limits.
use crate::tell;
use psnr::judge::COUNT_LIMIT;
use psnr::{Record, Run, Summed, Total};
use refusal::Refusal;
use std::io;

// The largest sample of depth 12.
const MAX: u32 = 4095;

// The largest error of a record: each of its most samples is off by 4,095.
const MOST: f64 = 4501400872550400.0;

fn record(frame: u32, sq_err: f64, n: u64, sample_max: u32) -> Record {
    Record {
        sq_err,
        n,
        sample_max,
        frame,
        plane: 0,
    }
}

// A record of this frame and plane.
fn numbered(frame: u32, plane: u32) -> Record {
    Record {
        sq_err: 9.0,
        n: 2,
        sample_max: 255,
        frame,
        plane,
    }
}

// A series of so many records, of frames from 0 on.
fn repeated(sq_err: f64, n: u64, sample_max: u32, times: u32) -> Run {
    (0..times).fold(psnr::start(), |run, frame| {
        psnr::step(run, record(frame, sq_err, n, sample_max))
    })
}

// Whether a series has this total, "identical" where the error is 0 and nowhere else.
fn sums_to(s: Run, error: f64, n: u64, max: u32) -> bool {
    match psnr::finish(s) {
        Ok(Summed::Differs(t)) => total_is(t, error, n, max) && error != 0.0,
        Ok(Summed::Identical(t)) => total_is(t, error, n, max) && error == 0.0,
        Err(_) => false,
    }
}

fn total_is(t: Total, error: f64, n: u64, max: u32) -> bool {
    tell::same(t.sq_err, error) && t.n == n && t.sample_max == max
}

// Whether a series is refused so.
fn refused(s: Run, refusal: Refusal) -> bool {
    psnr::finish(s).err() == Some(refusal)
}

// So many of the largest records.
fn largest(times: u32) -> Run {
    repeated(MOST, COUNT_LIMIT, MAX, times)
}

// Two of the largest, and one.
fn three(error: f64) -> Run {
    psnr::step(largest(2), record(2, error, COUNT_LIMIT, MAX))
}

// A sound record, and one.
fn two(sq_err: f64, n: u64, sample_max: u32) -> Run {
    let one = psnr::step(psnr::start(), record(0, 9.0, 2, 255));
    psnr::step(one, record(1, sq_err, n, sample_max))
}

// So many equal records of error 0.
fn equal(times: u32, sample_max: u32) -> Run {
    repeated(0.0, 5, sample_max, times)
}

fn spoils(sq_err: f64, n: u64, sample_max: u32) -> bool {
    refused(two(sq_err, n, sample_max), Refusal::Record)
}

// One, two and three planes of the largest error; the totals 2^53 and one more.
fn totals(rt: &impl Print) -> io::Result<()> {
    let list = [
        sums_to(largest(1), MOST, 268435456, MAX),
        sums_to(largest(2), 9002801745100800.0, 536870912, MAX),
        refused(largest(3), Refusal::Total),
        sums_to(three(4397509640192.0), 9007199254740992.0, 805306368, MAX),
        refused(three(4397509640193.0), Refusal::Total),
        sums_to(two(0.0, 3, 255), 9.0, 5, 255),
    ];
    tell::held(rt, "series", &list)
}

// No record, the most and one more; and a largest sample that no depth has.
fn counts(rt: &impl Print) -> io::Result<()> {
    let list = [
        refused(equal(0, 1), Refusal::Record),
        sums_to(equal(65536, 1), 0.0, 327680, 1),
        refused(equal(65537, 1), Refusal::Record),
        refused(equal(1, 254), Refusal::Record),
    ];
    tell::held(rt, "series of equal records", &list)
}

// Records that spoil a series.
fn spoiled(rt: &impl Print) -> io::Result<()> {
    let list = [
        spoils(-0.0, 3, 255),
        spoils(0.5, 3, 255),
        spoils(0.0 / 0.0, 3, 255),
        spoils(195076.0, 3, 255),
        spoils(1.0, 0, 255),
        spoils(1.0, COUNT_LIMIT + 1, 255),
        spoils(1.0, 3, 127),
    ];
    tell::held(rt, "spoiled series", &list)
}

// Records of two frames, each with its plane.
fn of_two(f: u32, p: u32, g: u32, q: u32) -> Run {
    psnr::step(psnr::step(psnr::start(), numbered(f, p)), numbered(g, q))
}

// Whether they are taken, and whether they are refused.
fn rises(f: u32, p: u32, g: u32, q: u32) -> bool {
    sums_to(of_two(f, p, g, q), 18.0, 4, 255)
}

fn falls(f: u32, p: u32, g: u32, q: u32) -> bool {
    refused(of_two(f, p, g, q), Refusal::Record)
}

// Frames and planes that rise, that do not, and a plane that no frame has.
fn ordered(rt: &impl Print) -> io::Result<()> {
    let list = [
        rises(0, 2, 1, 0),
        rises(5, 1, 5, 2),
        rises(0, 0, 4294967295, 2),
        falls(1, 0, 0, 2),
        falls(5, 1, 5, 1),
        falls(5, 2, 5, 1),
        falls(4294967295, 0, 0, 0),
        falls(0, 0, 1, 3),
        falls(0, 3, 1, 0),
    ];
    tell::held(rt, "frames and planes", &list)
}

pub fn replay(rt: &impl Print) -> io::Result<()> {
    totals(rt)?;
    counts(rt)?;
    spoiled(rt)?;
    ordered(rt)
}
