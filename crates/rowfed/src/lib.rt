// SSIM of planes whose rows come in bands: begin, feed any number of whole rows, finish. The caller holds a state by value and lends the same
// scratch to each call. SCOPE, "Rows as they arrive".
#![tactic(auto)]

ghost use Rattle.std.specs.Prelude.{◌≡◌, length};
ghost use Rattle.plane.specs.Inner.Seen.{sized, seen};
ghost use Rattle.rowfed.specs.Begin.{begin_of, scratch_begun};
ghost use Rattle.rowfed.specs.Feed.{fed_rows, feed_refusal, state_fed, scratch_fed};
ghost use Rattle.rowfed.specs.Finish.{finish_of, scratch_finished};

use plane::{Format, Pair, Plane, Stored};
use refusal::Refusal;
use ssim::{Ssim, Totals, walk};

pub mod begun;
pub mod ended;
pub mod possible;
pub mod taken;

// What the caller holds between calls: the sides and the depth of the planes, the kernel in the first `taps` of its places, how many rows have
// come, how many rows of centres are scored, and their sums.
#[derive(Clone, Copy, Debug, PartialEq)]
pub struct State {
    pub width: usize,
    pub height: usize,
    pub depth: u32,
    pub taps: usize,
    pub kernel: [u16; 255],
    pub rows: usize,
    pub scored: usize,
    pub sums: Totals,
}

// Planes whose rows will come: 1 2 7 8. Accepted, the needed part of the scratch is all zero and the rest as it was; refused, all is.
pub fn begin<S: Stored>(
    format: Format,
    kernel: &[u16],
    scratch: &mut [i64],
) -> Result<State, Refusal>
    ensures value { result ≡ begin_of (sized S.WIDE format) kernel.now scratch.old }
    ensures scratch_after { scratch.new ≡ scratch_begun (sized S.WIDE format) kernel.now scratch.old }
{
    begun::check::<S>(format, kernel, scratch.len())?;
    let need = ssim::scratch_places(format.width, kernel.len());
    walk::clear(&mut scratch[..need]);
    Ok(begun::new_state::<S>(format, kernel))
}

// The next rows of both planes: 15 where the state is impossible, else the lowest of 4 5 6 8 15. Refused, state and scratch are as they were.
pub fn feed<S: Stored>(
    state: &mut State,
    a: Plane<'_, S>,
    b: Plane<'_, S>,
    rows: usize,
    scratch: &mut [i64],
) -> Result<(), Refusal>
    ensures value { result ≡ feed_refusal state.old
        (fed_rows S.WIDE state.old (seen S.Sample.value a.entry) (seen S.Sample.value b.entry) rows) (length scratch.old) }
    ensures state_after { state.new ≡ state_fed state.old
        (fed_rows S.WIDE state.old (seen S.Sample.value a.entry) (seen S.Sample.value b.entry) rows) scratch.old }
    ensures scratch_after { scratch.new ≡ scratch_fed state.old
        (fed_rows S.WIDE state.old (seen S.Sample.value a.entry) (seen S.Sample.value b.entry) rows) scratch.old }
{
    let format = Format {
        width: state.width,
        height: rows,
        depth: state.depth,
    };
    taken::feed(Pair { format, a, b }, state, scratch)
}

// The pair of all rows: 15 where the state is impossible, then 8, then 15 where rows are still to come; then 9. Refused by these three, scratch is as
// it was; else, and at 9, its needed part is all zero and the rest as it was.
pub fn finish(state: State, scratch: &mut [i64]) -> Result<Ssim, Refusal>
    ensures value { result ≡ finish_of state scratch.old }
    ensures scratch_after { scratch.new ≡ scratch_finished state scratch.old }
{
    ended::check(state, scratch.len())?;
    ended::close(state, scratch)
}
