// Feed.
ghost use Rattle.std.specs.Prelude.{◌≡◌, true, ◌++◌, ◌+◌, ◌-◌, ◌≤◌, ◌<◌, pos, length, take, drop, replicate};
ghost use Rattle.refusal.specs.First.{first_broken};
ghost use Rattle.plane.specs.Limits.{side_limit};
ghost use Rattle.plane.specs.Sums.{sum_to};
ghost use Rattle.plane.specs.Tests.{depth_suits};
ghost use Rattle.plane.specs.Inner.Seen.{sized, planes, Long};
ghost use Rattle.kernel.specs.Kernel.{tap, lent_total};
ghost use Rattle.window.specs.Inner.Parts.{Kernel};
ghost use Rattle.row_ring.specs.Taken.{taken_of};
ghost use Rattle.row_ring.specs.Ring.{ring_places};
ghost use Rattle.row_ring.specs.Inner.Places.{Roomy};
ghost use Rattle.rowfed.specs.Feed.{rows_tests, late_tests, feed_refusal, used_places, taken_in, with_rows, state_fed, scratch_fed};
ghost use Rattle.rowfed.specs.Inner.Sound.{SoundState, SoundFeed};

use crate::{State, possible};
use plane::{Pair, Stored};
use refusal::Refusal;
use row_ring::{Ring, Scoring};
use ssim::{Totals, centre, walk};

// The lowest of 4 5 6 that applies to the rows of a feed. No rows need no samples.
#[tactic(auto, using(crate::proofs::Accept::no_rows))]
fn check_rows<S: Stored>(p: Pair<'_, S>) -> Result<(), Refusal>
    requires depth_value { depth_suits S.WIDE p.format.depth ≡ true }
    requires le_width { 1 ≤ p.format.width }
    ensures { result ≡ first_broken (rows_tests (planes S.Sample.value S.WIDE p.entry)) }
{
    let width = p.format.width;
    if p.format.height == 0 {
        if plane::stride_suits(width, p.a.stride) & plane::stride_suits(width, p.b.stride) {
            return Ok(());
        }
        return Err(Refusal::Stride);
    }
    let own = plane::check_layout(p.format, p.a);
    let other = plane::check_layout(p.format, p.b);
    refusal::lower(own, other)
}

// 8 where too few places are lent, 15 where the rows go past the height.
#[tactic(auto, unfolding(crate::specs::Feed::late_tests))]
fn check_late(state: State, rows: usize, lent: usize) -> Result<(), Refusal>
    requires { SoundState state }
    ensures { result ≡ first_broken (late_tests state rows lent) }
{
    if lent < ssim::scratch_places(state.width, state.taps) {
        return Err(Refusal::Scratch);
    }
    if state.height - state.rows < rows {
        return Err(Refusal::State);
    }
    Ok(())
}

// 15 where the state is impossible; else the lowest of 4 5 6 8 15 that applies.
#[tactic(auto, using(crate::proofs::Accept::feed_in_parts))]
fn check<S: Stored>(p: Pair<'_, S>, state: State, lent: usize) -> Result<(), Refusal>
    requires { (p.format.width ≡ state.width) × (p.format.depth ≡ state.depth) }
    ensures { result ≡ feed_refusal state (planes S.Sample.value S.WIDE p.entry) lent }
{
    if !possible::is_possible(S::WIDE, state) {
        return Err(Refusal::State);
    }
    check_rows(p)?;
    check_late(state, p.format.height, lent)
}

// Rows into the places that are used: the ring as it stands, and zeros past it, whatever the caller left there.
fn take<S: Stored>(
    p: Pair<'_, S>,
    by: Scoring<'_>,
    received: usize,
    t: Totals,
    used: &mut [i64],
) -> Totals
    requires height_bound { (received + p.format.height ≤ by.ring.height) × (p.format.width ≡ by.ring.width)
        × (by.ring.width ≤ side_limit) × (by.ring.height ≤ side_limit) }
    requires long { 0 < p.format.height → Long (sized S.WIDE p.format) (planes S.Sample.value S.WIDE p).a
        × Long (sized S.WIDE p.format) (planes S.Sample.value S.WIDE p).b }
    requires roomy { Roomy by.ring by.kernel.now (length used.old) }
    requires kernel { Kernel by.kernel.now }
    requires lent_total_value { lent_total ≡ sum_to (tap by.kernel.now) (length by.kernel.now) }
    ensures { record { places = used.new; totals = result } ≡ taken_of by.entry.max2 by.entry.kernel.now by.entry.ring
        (planes S.Sample.value S.WIDE p.entry) received
        (record {
          places = take (ring_places by.entry.ring) used.old
              ++ replicate (length used.old - ring_places by.entry.ring) (pos 0);
          totals = t;
        }) p.entry.format.height }
{
    let past = by.ring.lines * by.ring.width;
    walk::clear(&mut used[past..]);
    row_ring::take_rows(p, by, received, t, used)
}

// The same of a state, whose kernel stands in the first `taps` of these places.
fn take_under<S: Stored>(
    p: Pair<'_, S>,
    state: State,
    kernel: &[u16],
    scratch: &mut [i64],
) -> Totals
    requires kernel_value { kernel.now ≡ state.kernel }
    requires sound_feed { SoundFeed state (planes S.Sample.value S.WIDE p) (length scratch.old) }
    ensures value { result ≡ (taken_in state (planes S.Sample.value S.WIDE p.entry) scratch.old).totals }
    ensures scratch_after { scratch.new ≡ (taken_in state (planes S.Sample.value S.WIDE p.entry)
        scratch.old).places ++ drop (used_places state) scratch.old }
{
    let taps = state.taps;
    let ring = Ring {
        width: state.width,
        height: state.height,
        lines: ssim::next_power(taps),
    };
    let used = ring.lines * ring.width + 5 * (state.width + 2 * (taps / 2));
    let max2 = centre::squared(plane::sample_max(state.depth));
    let by = Scoring {
        ring,
        kernel: &kernel[..taps],
        max2,
    };
    take(p, by, state.rows, state.sums, &mut scratch[..used])
}

// The state with so many more rows, and these sums.
fn with_rows(state: State, rows: usize, sums: Totals) -> State
    requires { (state.rows + rows ≤ state.height) × (state.height ≤ side_limit) }
    ensures { result ≡ with_rows state rows sums }
{
    let received = state.rows + rows;
    State {
        rows: received,
        scored: row_ring::scored_after(received, state.height, state.taps / 2),
        sums,
        ..state
    }
}

// Feed.
pub fn feed<S: Stored>(
    p: Pair<'_, S>,
    state: &mut State,
    scratch: &mut [i64],
) -> Result<(), Refusal>
    requires { (p.format.width ≡ state.old.width) × (p.format.depth ≡ state.old.depth) }
    ensures value { result ≡ feed_refusal state.old (planes S.Sample.value S.WIDE p.entry) (length scratch.old) }
    ensures state_after { state.new ≡ state_fed state.old (planes S.Sample.value S.WIDE p.entry)
        scratch.old }
    ensures scratch_after { scratch.new ≡ scratch_fed state.old (planes S.Sample.value S.WIDE p.entry)
        scratch.old }
{
    let before = *state;
    check(p, before, scratch.len())?;
    let sums = take_under(p, before, &before.kernel, scratch);
    *state = with_rows(before, p.format.height, sums);
    Ok(())
}
