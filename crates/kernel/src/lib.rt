// Kernels: which taps a caller may lend. What the sums make of them is `window`'s.
#![tactic(auto)]

ghost use Rattle.std.specs.Prelude.{◌≡◌, ◌≤◌, ◌<◌, length};
ghost use Rattle.kernel.specs.Kernel.{most_taps, lent_total, odd_count, taps_suit, sums_to, mirrored, middled, ended, lawful};

// The largest count of taps.
pub const MOST_TAPS: usize = 255;
// What the taps of a lent kernel sum to.
pub const LENT_TOTAL: u64 = 256;

// An odd count of taps, and not too many.
#[tactic(auto, unfolding(crate::specs::Kernel::odd_count, crate::specs::Kernel::most_taps))]
fn odd_count(taps: &[u16]) -> bool
    ensures { result ≡ odd_count taps.now }
{
    (taps.len() % 2 == 1) & (taps.len() <= MOST_TAPS)
}

// No tap above the total.
#[tactic(auto, using(plane::proofs::All::all_none, plane::proofs::All::all_more), unfolding(crate::specs::Kernel::taps_suit))]
fn taps_suit(taps: &[u16], total: u64) -> bool
    ensures { result ≡ taps_suit total taps.now }
{
    let mut ok = true;
    for tap in taps {
        ok &= u64::from(*tap) <= total;
    }
    ok
}

// The taps sum to the total.
#[tactic(auto, using(plane::proofs::Sums::sum_none, plane::proofs::Sums::sum_more), unfolding(crate::specs::Kernel::sums_to, crate::specs::Kernel::most_taps))]
fn sums_to(taps: &[u16], total: u64) -> bool
    requires { length taps.now ≤ most_taps }
    ensures { result ≡ sums_to total taps.now }
{
    let mut sum: u64 = 0;
    for tap in taps {
        sum += u64::from(*tap);
    }
    sum == total
}

// The same from both ends.
#[tactic(auto, using(plane::proofs::All::all_none, plane::proofs::All::all_more), unfolding(crate::specs::Kernel::mirrored))]
fn is_mirrored(taps: &[u16]) -> bool
    ensures { result ≡ mirrored taps.now }
{
    let mut ok = true;
    // by index: the tap and its mirror are read together
    for (k, tap) in taps.iter().enumerate() {
        ok &= *tap == taps[taps.len() - 1 - k];
    }
    ok
}

// The middle tap is at least 1.
#[tactic(auto, unfolding(crate::specs::Kernel::middled))]
fn is_middled(taps: &[u16]) -> bool
    requires { 0 < length taps.now }
    ensures { result ≡ middled taps.now }
{
    let middle = taps.len() / 2;
    1 <= taps[middle]
}

// No idle ends: of more than one tap the first is at least 1. A lawful kernel is the same from both ends, so that the last is too.
#[tactic(auto, unfolding(crate::specs::Kernel::ended))]
fn is_ended(taps: &[u16]) -> bool
    requires { 0 < length taps.now }
    ensures { result ≡ ended taps.now }
{
    (taps.len() <= 1) | (1 <= taps[0])
}

// Whether a lent kernel is lawful. Any taps may be asked about.
#[tactic(auto, using(crate::proofs::Says::odd_says), unfolding(crate::specs::Kernel::lawful, crate::specs::Kernel::lent_total))]
pub fn is_lawful(taps: &[u16]) -> bool
    ensures { result ≡ lawful lent_total taps.now }
{
    odd_count(taps)
        && taps_suit(taps, LENT_TOTAL)
        && sums_to(taps, LENT_TOTAL)
        && is_mirrored(taps)
        && is_middled(taps)
        && is_ended(taps)
}
