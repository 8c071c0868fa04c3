// Which states a begin and feeds can give.
ghost use Rattle.std.specs.Prelude.{◌≡◌, true, false, ◌||◌};
ghost use Rattle.rowfed.specs.State.{zeros, places_suit, counts_suit, possible};

use crate::State;

// All of a list is 0.
#[tactic(auto, using(plane::proofs::All::all_none, plane::proofs::All::all_more), unfolding(crate::specs::State::zeros))]
fn all_zero(l: &[u16]) -> bool
    ensures { result ≡ zeros l.now }
{
    let mut ok = true;
    for k in l {
        ok &= *k == 0;
    }
    ok
}

// The first `taps` places are a lawful kernel, the others 0.
fn places_suit(places: &[u16], taps: usize) -> bool
    ensures { result ≡ places_suit places.now taps }
{
    if places.len() < taps {
        return false;
    }
    kernel::is_lawful(&places[..taps]) && all_zero(&places[taps..])
}

// The same of a state.
fn kernel_suits(s: State) -> bool
    ensures { result ≡ places_suit s.kernel s.taps }
{
    places_suit(&s.kernel, s.taps)
}

// No more rows than the height, and as many scored as so many rows allow.
#[tactic(auto, unfolding(crate::specs::State::counts_suit))]
fn counts_suit(s: State) -> bool
    ensures { result ≡ counts_suit s }
{
    if s.height < s.rows {
        return false;
    }
    s.scored == row_ring::scored_after(s.rows, s.height, s.taps / 2)
}

// Whether a begin and feeds of this sample width can give these numbers. The running sums are not judged.
#[tactic(auto, unfolding(crate::specs::State::possible))]
pub fn is_possible(wide: bool, s: State) -> bool
    ensures { result ≡ possible wide s }
{
    plane::depth_suits(wide, s.depth)
        && (plane::sides_suit(s.width, s.height) && (kernel_suits(s) && counts_suit(s)))
}

// The same of either width: a finish has no samples.
pub fn is_possible_anyhow(s: State) -> bool
    ensures { result ≡ (possible false s || possible true s) }
{
    is_possible(false, s) || is_possible(true, s)
}
