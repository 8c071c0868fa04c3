// Which record is bad, after SCOPE, "When the desk says no".
ghost use Rattle.std.specs.Prelude.{◌≡◌, ◌+◌, min};
ghost use Rattle.psnr.specs.Record.{is_whole, count_suits, max_suits, error_suits, plane_suits, record_suits, joins, earlier};

use crate::Record;

// The largest n of a record.
pub const COUNT_LIMIT: u64 = 268435456;

// The largest number of a plane.
pub const MOST_PLANE: u32 = 2;

// a + b, but no more than `cap`.
pub fn capped_sum(a: u64, b: u64, cap: u64) -> u64
    ensures { result ≡ min (a + b) cap }
{
    a.saturating_add(b).min(cap)
}

// Whether e is a whole number, small enough that all are doubles, and not minus zero: one that comes back, bit for bit, when its fraction
// is cut off.
pub fn is_whole(e: f64) -> bool
    ensures { result ≡ is_whole e }
{
    if !(-1.0 < e) {
        return false;
    }
    if !(e <= number::EXACT_LIMIT_DOUBLE) {
        return false;
    }
    let n = std::num::truncating_f64_to_u64(e);
    f64::to_bits(e) == f64::to_bits(number::exact(n))
}

// Whether e is a whole number from 0 to `most`.
#[tactic(auto, unfolding(crate::specs::Record::error_suits))]
pub fn error_suits(most: u64, e: f64) -> bool
    ensures { result ≡ error_suits most e }
{
    is_whole(e) && e as u64 <= most
}

// Whether n is from 1 to its limit.
#[tactic(auto, unfolding(crate::specs::Record::count_suits, crate::specs::Limits::count_limit))]
pub fn count_suits(n: u64) -> bool
    ensures { result ≡ count_suits n }
{
    (1..=COUNT_LIMIT).contains(&n)
}

// Whether max is the sample_max of a depth.
pub fn max_suits(max: u32) -> bool
    ensures { result ≡ max_suits max }
{
    (0..plane::DEPTH_LIMIT).any(|i| max == plane::sample_max(i + 1))
}

// Whether the plane's number is 0, 1 or 2.
#[tactic(auto, unfolding(crate::specs::Record::plane_suits, crate::specs::Limits::most_plane))]
pub fn plane_suits(plane: u32) -> bool
    ensures { result ≡ plane_suits plane }
{
    plane <= MOST_PLANE
}

// Whether the record is not bad by itself. n and max are judged first, so that the product fits.
#[tactic(auto, using(crate::proofs::Records::product_room), unfolding(crate::specs::Record::record_suits))]
pub fn record_suits(r: Record) -> bool
    ensures { result ≡ record_suits r }
{
    if !count_suits(r.n) || !max_suits(r.sample_max) {
        return false;
    }
    let max = u64::from(r.sample_max);
    error_suits(r.n * (max * max), r.sq_err) && plane_suits(r.plane)
}

// Whether it is not bad in a series whose first record has this max.
#[tactic(auto, unfolding(crate::specs::Record::joins))]
pub fn joins(max: u32, r: Record) -> bool
    ensures { result ≡ joins max r }
{
    record_suits(r) && r.sample_max == max
}

// Whether a frame and plane come before others: by frame, then by plane.
#[tactic(auto, unfolding(crate::specs::Record::earlier))]
pub fn is_earlier(frame: u32, plane: u32, next_frame: u32, next_plane: u32) -> bool
    ensures { result ≡ earlier frame plane next_frame next_plane }
{
    (frame, plane) < (next_frame, next_plane)
}
