// Checks of two planes. Of each plane `from` is the place of the one sample that is not 0, and `end` how many samples there are; told are
// those samples, and the least side.
use crate::rows::Row;
use crate::tell;
use plane::Stored;
use refusal::Refusal;

// The samples of a plane, as many as the table's places reach: at this place no sample is set.
const ROOM: usize = plane::SIDE_LIMIT;

fn set<S: Copy>(samples: &mut [S], at: usize, value: S) {
    if let Some(sample) = samples.get_mut(at) {
        *sample = value;
    }
}

// The check of two planes that are `a` and `b` but for a sample of each, x and y.
fn ask<S: Stored>(r: Row, a: &mut [S], x: S, b: &mut [S], y: S) -> Result<(), Refusal> {
    set(a, r.a.from, x);
    set(b, r.b.from, y);
    plane::check(r.fronts(a, b), r.told[2])
}

fn ask_bytes(r: Row) -> Option<Result<(), Refusal>> {
    let [x, y, _] = r.told;
    let x = u8::try_from(x).ok()?;
    let y = u8::try_from(y).ok()?;
    Some(ask(r, &mut [0; ROOM], x, &mut [0; ROOM], y))
}

fn ask_words(r: Row) -> Option<Result<(), Refusal>> {
    let [x, y, _] = r.told;
    let x = u16::try_from(x).ok()?;
    let y = u16::try_from(y).ok()?;
    Some(ask(r, &mut [0; ROOM], x, &mut [0; ROOM], y))
}

pub fn check_is(r: Row) -> bool {
    let answer = if r.wide { ask_words(r) } else { ask_bytes(r) };
    answer.map(tell::number_of) == Some(r.no)
}
