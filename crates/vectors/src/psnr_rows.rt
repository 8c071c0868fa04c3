// Squared errors of two planes: told are 0 where the planes are equal, else 1; the count of samples; and the largest that one can be.
// Each row is asked as the last plane of the last frame, and with a plane number that there is none of.
use crate::rows::Row;
use crate::{table, tell};
use psnr::judge::MOST_PLANE;
use psnr::{Record, SquaredError};
use refusal::Refusal;

// The last frame.
const FRAME: u32 = 4294967295;

fn ask(r: Row, plane: u32) -> Result<SquaredError, Refusal> {
    if r.wide {
        psnr::squared_error(r.parts(&table::WORDS), FRAME, plane)
    } else {
        psnr::squared_error(r.parts(&table::BYTES), FRAME, plane)
    }
}

fn record_is(s: Record, r: Row) -> bool {
    let [_, n, sample_max] = r.told;
    r.no == 0
        && tell::stand(&[s.sq_err], r.at)
        && s.n == n as u64
        && s.sample_max as usize == sample_max
        && s.frame == FRAME
        && s.plane == MOST_PLANE
}

// "Identical" belongs to an error of 0 and to no other.
fn last_is(r: Row) -> bool {
    match ask(r, MOST_PLANE) {
        Ok(SquaredError::Differs(s)) => record_is(s, r) && r.told[0] != 0,
        Ok(SquaredError::Identical(s)) => record_is(s, r) && r.told[0] == 0,
        Err(refusal) => refusal.number() == r.no,
    }
}

// A plane number that there is none of: the row's own refusal, and else the record's.
fn past_is(r: Row) -> bool {
    let no = if r.no == 0 {
        Refusal::Record.number()
    } else {
        r.no
    };
    tell::number_of(ask(r, MOST_PLANE + 1)) == no
}

pub fn error_is(r: Row) -> bool {
    last_is(r) && past_is(r)
}
