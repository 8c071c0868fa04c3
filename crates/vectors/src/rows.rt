// The largest table. A row asks for a call on two planes, and has the answer.
use crate::{hvs_rows, msssim_rows, planes, psnr_rows, ssim_rows, table, tell};
use plane::{Format, Pair, Plane};
use refusal::Refusal;
use std::io;
use std::num::TryFromIntError;
use std::ops::Range;

// How many numbers a row has.
const ROW: usize = 15;

// A plane. What `from` and `end` tell is the family's to say.
#[derive(Clone, Copy, Debug, PartialEq, Eq)]
pub struct Lent {
    pub stride: usize,
    pub from: usize,
    pub end: usize,
}

// Words or bytes; two planes; three numbers more, which are the family's too; the answer; and where in the list its scores begin.
#[derive(Clone, Copy, Debug, PartialEq, Eq)]
pub struct Row {
    pub wide: bool,
    pub format: Format,
    pub a: Lent,
    pub b: Lent,
    pub told: [usize; 3],
    pub no: u8,
    pub at: usize,
}

impl Row {
    fn of<'a, S>(self, a: &'a [S], b: &'a [S]) -> Pair<'a, S> {
        Pair {
            format: self.format,
            a: Plane {
                samples: a,
                stride: self.a.stride,
            },
            b: Plane {
                samples: b,
                stride: self.b.stride,
            },
        }
    }

    // The planes that are parts of a list, from `from` up to `end`.
    pub fn parts<S>(self, list: &[S]) -> Pair<'_, S> {
        self.of(
            tell::part_of(list, self.a.from..self.a.end),
            tell::part_of(list, self.b.from..self.b.end),
        )
    }

    // The planes that two lists begin with, up to `end`.
    pub fn fronts<'a, S>(self, a: &'a [S], b: &'a [S]) -> Pair<'a, S> {
        self.of(
            tell::part_of(a, 0..self.a.end),
            tell::part_of(b, 0..self.b.end),
        )
    }

    // Whether an answer is the row's: a refusal by its number, or scores as they stand in the list.
    pub fn has<const N: usize>(self, answer: Result<[f64; N], Refusal>) -> bool {
        match answer {
            Ok(scores) => self.no == 0 && tell::stand(&scores, self.at),
            Err(refusal) => self.no == refusal.number(),
        }
    }
}

impl TryFrom<[usize; ROW]> for Row {
    type Error = TryFromIntError;

    fn try_from(row: [usize; ROW]) -> Result<Row, TryFromIntError> {
        let [
            wide,
            depth,
            width,
            height,
            stride_a,
            from_a,
            end_a,
            stride_b,
            from_b,
            end_b,
            x,
            y,
            z,
            no,
            at,
        ] = row;
        Ok(Row {
            wide: wide != 0,
            format: Format {
                width,
                height,
                depth: u32::try_from(depth)?,
            },
            a: Lent {
                stride: stride_a,
                from: from_a,
                end: end_a,
            },
            b: Lent {
                stride: stride_b,
                from: from_b,
                end: end_b,
            },
            told: [x, y, z],
            no: u8::try_from(no)?,
            at,
        })
    }
}

// The rows of a family, which stand at `places`.
fn family<F: Fn(Row) -> bool>(
    rt: &impl Print,
    name: &str,
    places: Range<usize>,
    is_right: F,
) -> io::Result<()>
    requires { F.IsAlwaysCallable is_right }
{
    let list = table::ROWS;
    let (rows, _) = list.as_chunks::<ROW>();
    // a `match`: at `is_ok_and(&is_right)` the proof did not close, that the call may be made
    tell::replay(
        rt,
        name,
        tell::part_of(rows, places),
        |&row| match Row::try_from(row) {
            Ok(r) => is_right(r),
            Err(_) => false,
        },
    )
}

// SCOPE's numbers that are run are among these: the root of 2; depths 8, 9, 12, 13 and sides of 16,384 and 16,385 in the plane
// checks; the kernel 128 0 128 in SSIM; side 7 in PSNR-HVS; sides 15 and 16 in MS-SSIM. Totals are in src/series.rt: planes of the
// largest error, 2^53 and one more.
pub fn replay(rt: &impl Print) -> io::Result<()> {
    family(rt, "plane checks", 0..table::CHECKS, planes::check_is)?;
    family(
        rt,
        "squared errors",
        table::CHECKS..table::SQUARED,
        psnr_rows::error_is,
    )?;
    family(rt, "SSIM", table::SQUARED..table::SSIM, ssim_rows::pair_is)?;
    family(rt, "PSNR-HVS", table::SSIM..table::HVS, hvs_rows::score_is)?;
    family(
        rt,
        "MS-SSIM",
        table::HVS..table::MSSSIM,
        msssim_rows::five_are,
    )
}
