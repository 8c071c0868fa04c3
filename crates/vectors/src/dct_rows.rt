// Transforms and their inverses. A row has which of the two it is, the answer, 64 numbers, and the 64 that they become.
use crate::{table, tell};
use refusal::Refusal;
use std::io;

// How many numbers a block has, and how many a row.
const BLOCK: usize = 64;

const ROW: usize = 130;

// Which of the two a row asks for.
#[derive(Clone, Copy, Debug, PartialEq, Eq)]
enum Way {
    Forward,
    Inverse,
}

impl TryFrom<i32> for Way {
    type Error = i32;

    fn try_from(n: i32) -> Result<Way, i32> {
        match n {
            0 => Ok(Way::Forward),
            1 => Ok(Way::Inverse),
            _ => Err(n),
        }
    }
}

fn ask(way: Way, block: &[i32], out: &mut [i32]) -> Result<(), Refusal> {
    match way {
        Way::Forward => dct::forward(block, out),
        Way::Inverse => dct::inverse(block, out),
    }
}

// Whether a row gives its answer; refused, the zeros stay.
fn row_is(row: &[i32; ROW]) -> bool {
    let &[way, answer, ..] = row;
    let Ok(way) = Way::try_from(way) else {
        return false;
    };
    let (_, numbers) = row.split_at(2);
    let (block, becomes) = numbers.split_at(BLOCK);
    let mut out = [0i32; BLOCK];
    let no = tell::number_of(ask(way, block, &mut out));
    i32::from(no) == answer && out.as_slice() == becomes
}

pub fn replay(rt: &impl Print) -> io::Result<()> {
    let list = table::TRANSFORMS;
    let (rows, _) = list.as_chunks::<ROW>();
    tell::replay(rt, "transforms", rows, row_is)
}
