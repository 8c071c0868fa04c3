// Roots: a number, and its root or -1 where it is refused.
use crate::{table, tell};
use refusal::Refusal;
use std::io;

fn root_is(x: f64, root: f64) -> bool {
    match number::root(x) {
        Ok(r) => tell::same(r, root),
        Err(refusal) => refusal == Refusal::Value && root == -1.0,
    }
}

// The roots of the table.
pub fn replay(rt: &impl Print) -> io::Result<()> {
    let list = table::ROOTS;
    let (pairs, _) = list.as_chunks::<2>();
    tell::replay(rt, "roots", pairs, |&[x, root]| root_is(x, root))
}

pub fn replay_others(rt: &impl Print) -> io::Result<()> {
    let list = [f64::INFINITY, f64::NEG_INFINITY, f64::NAN];
    tell::replay(
        rt,
        "infinities and not a number",
        &list,
        |&x| root_is(x, -1.0),
    )
}
