// What a plane may be, after docs/SCOPE.md: its limits, the tests 1 to 6 of a call, and the samples of a plane, whatever they are stored as.
#![tactic(auto)]

ghost use Rattle.std.specs.Prelude.{◌≡◌, ℕ, Bool, true, false, [], ◌∷◌, ◌+◌, ◌*◌, ◌<◌, ◌≤◌, length, map, leb};
ghost use Rattle.refusal.specs.First.{first_broken};
ghost use Rattle.plane.specs.Limits.{most_depth};
ghost use Rattle.plane.specs.Plane.{max_of, at, all_to};
ghost use Rattle.plane.specs.Inner.Seen.{sized, seen, planes, row_in, Long};
ghost use Rattle.plane.specs.Inner.Unread.{lent_tests, unread_refusal};
ghost use Rattle.plane.specs.Tests.{depth_suits, sides_suit, sides_reach, stride_suits, long_enough};
ghost use Rattle.plane.specs.Tests.{none_above, row_suits, samples_suit, size_tests, layout_tests, pair_refusal};

use refusal::Refusal;

// The largest width and the largest height.
pub const SIDE_LIMIT: usize = 16384;
// The largest stride.
pub const STRIDE_LIMIT: usize = 32768;
// The largest depth of any sample, which is that of words.
pub const DEPTH_LIMIT: u32 = 12;
// The largest byte.
pub const BYTE_MAX: u32 = 255;

// A sample: a byte or a word of a plane, or a 32-bit place of a scale.
pub trait Sample: Copy {
    // The number that it is.
    ghost value: { Self → ℕ };

    fn value(self) -> u32
        ensures { result ≡ value self };

    fn is_at_most(self, max: Self) -> bool
        ensures { result ≡ leb (value self) (value max) };
}

impl Sample for u8 {
    ghost value = { λ x. x };

    fn value(self) -> u32 {
        u32::from(self)
    }

    fn is_at_most(self, max: u8) -> bool {
        self <= max
    }
}

impl Sample for u16 {
    ghost value = { λ x. x };

    fn value(self) -> u32 {
        u32::from(self)
    }

    fn is_at_most(self, max: u16) -> bool {
        self <= max
    }
}

impl Sample for u32 {
    ghost value = { λ x. x };

    fn value(self) -> u32 {
        self
    }

    fn is_at_most(self, max: u32) -> bool {
        self <= max
    }
}

// What the samples of a lent plane are stored as.
pub trait Stored: Sample {
    // Whether they are words, and else bytes.
    ghost WIDE: { Bool };

    const WIDE: bool;

    // Whether no sample of a row is above `max`.
    fn row_suits(row: &[Self], max: u32) -> bool
        requires { max ≤ max_of (most_depth WIDE) }
        ensures { result ≡ none_above max (at (map Self.value row.now)) (length row.now) };
}

impl Stored for u8 {
    ghost WIDE = { false };

    const WIDE: bool = false;

    // No byte can be above the sample_max of the largest depth of bytes, so those are not read.
    fn row_suits(row: &[u8], max: u32) -> bool {
        BYTE_MAX <= max || none_above(row, max as u8)
    }
}

impl Stored for u16 {
    ghost WIDE = { true };

    const WIDE: bool = true;

    fn row_suits(row: &[u16], max: u32) -> bool {
        none_above(row, max as u16)
    }
}

// Whether no sample of a row is above `max`. A row is walked to its end, whatever it holds: such a loop is vectorised.
#[tactic(auto, using(crate::proofs::All::none_none, crate::proofs::All::none_more, crate::proofs::All::at_value))]
pub fn none_above<S: Sample>(row: &[S], max: S) -> bool
    ensures { result ≡ none_above (S.value max) (at (map S.value row.now)) (length row.now) }
{
    let mut ok = true;
    for &x in row {
        ok &= x.is_at_most(max);
    }
    ok
}

// What the planes of a call share: their sides in samples, and their depth.
#[derive(Clone, Copy, Debug, PartialEq, Eq)]
pub struct Format {
    pub width: usize,
    pub height: usize,
    pub depth: u32,
}

// A plane as it is lent: its samples, row after row, and how far a row is from the next.
#[derive(Clone, Copy)]
pub struct Plane<'a, S> {
    pub samples: &'a [S],
    pub stride: usize,
}

// The two planes of a call.
#[derive(Clone, Copy)]
pub struct Pair<'a, S> {
    pub format: Format,
    pub a: Plane<'a, S>,
    pub b: Plane<'a, S>,
}

// Test 1. Bytes carry depths 1 to 8, words carry 9 to 12.
pub fn depth_suits(wide: bool, depth: u32) -> bool
    ensures { result ≡ depth_suits wide depth }
{
    match depth {
        1..=8 => !wide,
        9..=DEPTH_LIMIT => wide,
        _ => false,
    }
}

// 2^depth - 1.
pub fn sample_max(depth: u32) -> u32
    requires { depth < 32 }
    ensures { result ≡ max_of depth }
{
    (1u32 << depth) - 1
}

// Test 2.
pub fn sides_suit(width: usize, height: usize) -> bool
    ensures { result ≡ sides_suit width height }
{
    ((1 <= width) & (width <= SIDE_LIMIT)) & ((1 <= height) & (height <= SIDE_LIMIT))
}

// Test 3.
pub fn sides_reach(least: usize, width: usize, height: usize) -> bool
    ensures { result ≡ sides_reach least width height }
{
    (least <= width) & (least <= height)
}

// Test 4, of one plane.
pub fn stride_suits(width: usize, stride: usize) -> bool
    ensures { result ≡ stride_suits width stride }
{
    (width <= stride) & (stride <= STRIDE_LIMIT)
}

// Test 5, of one plane. It divides, so that no product of free numbers has to fit.
pub fn long_enough<S: Stored>(format: Format, p: Plane<'_, S>) -> bool
    requires { (1 ≤ format.width) × (format.width ≤ p.stride) }
    ensures { result ≡ long_enough (sized S.WIDE format) (seen S.Sample.value p.entry) }
{
    let n = p.samples.len();
    if n < format.width {
        return false;
    }
    format.height <= (n - format.width) / p.stride + 1
}

// The visible samples of row y.
pub fn row<'a, S>(p: Plane<'a, S>, width: usize, y: usize) -> &'a [S]
    requires { y * p.stride + width ≤ length p.samples.now }
    ensures { result.now ≡ row_in p.entry.samples.now p.entry.stride width y }
{
    let start = y * p.stride;
    &p.samples[start..start + width]
}

// Test 6, of one plane. What stands between rows is never read.
pub fn samples_suit<S: Stored>(format: Format, p: Plane<'_, S>) -> bool
    requires depth_value { depth_suits S.WIDE format.depth ≡ true }
    requires long { Long (sized S.WIDE format) (seen S.Sample.value p) }
    ensures { result ≡ samples_suit (sized S.WIDE format) (seen S.Sample.value p.entry) }
{
    let max = sample_max(format.depth);
    let mut ok = true;
    // by index: rows stand a stride apart, and the last may end before the next stride
    for y in 0..format.height {
        ok &= S::row_suits(row(p, format.width, y), max);
    }
    ok
}

// The lowest of 1, 2 and 3 that applies. `least` is the call's least side, 0 where 3 does not belong to it.
#[tactic(auto, unfolding(crate::specs::Tests::size_tests))]
pub fn check_size<S: Stored>(format: Format, least: usize) -> Result<(), Refusal>
    ensures { result ≡ first_broken (size_tests (sized S.WIDE format) least) }
{
    if !depth_suits(S::WIDE, format.depth) {
        return Err(Refusal::Depth);
    }
    if !sides_suit(format.width, format.height) {
        return Err(Refusal::Size);
    }
    if !sides_reach(least, format.width, format.height) {
        return Err(Refusal::Side);
    }
    Ok(())
}

// The lowest of 4 and 5 that applies to one plane.
#[tactic(auto, using(crate::proofs::Accept::stride_says), unfolding(crate::specs::Inner::Unread::lent_tests))]
fn check_lent<S: Stored>(format: Format, p: Plane<'_, S>) -> Result<(), Refusal>
    requires { 1 ≤ format.width }
    ensures { result ≡ first_broken (lent_tests (sized S.WIDE format) (seen S.Sample.value p.entry ∷ [])) }
{
    if !stride_suits(format.width, p.stride) {
        return Err(Refusal::Stride);
    }
    if !long_enough(format, p) {
        return Err(Refusal::Short);
    }
    Ok(())
}

// The lowest of 4, 5 and 6 that applies to one plane.
#[tactic(auto, using(crate::proofs::Unread::layout_by, crate::proofs::Unread::lent_says))]
pub fn check_layout<S: Stored>(format: Format, p: Plane<'_, S>) -> Result<(), Refusal>
    requires depth_value { depth_suits S.WIDE format.depth ≡ true }
    requires le_width { 1 ≤ format.width }
    ensures { result ≡ first_broken (layout_tests (sized S.WIDE format) (seen S.Sample.value p.entry ∷ [])) }
{
    check_lent(format, p)?;
    if !samples_suit(format, p) {
        return Err(Refusal::Sample);
    }
    Ok(())
}

// The lowest of 1 to 6 that applies to two planes. `least` is the least side of the call, 0 where 3 is not among its refusals.
#[tactic(auto, using(crate::proofs::Several::pair_in_parts, crate::proofs::Several::sizes_say))]
pub fn check<S: Stored>(p: Pair<'_, S>, least: usize) -> Result<(), Refusal>
    ensures { result ≡ pair_refusal (planes S.Sample.value S.WIDE p.entry) least }
{
    check_size::<S>(p.format, least)?;
    let own = check_layout(p.format, p.a);
    let other = check_layout(p.format, p.b);
    refusal::lower(own, other)
}

// The lowest of 1 to 5 that applies to them: for a call that judges 6 while it reads.
#[tactic(auto, using(crate::proofs::Unread::unread_in_parts, crate::proofs::Several::sizes_say))]
pub fn check_unread<S: Stored>(p: Pair<'_, S>, least: usize) -> Result<(), Refusal>
    ensures { result ≡ unread_refusal (planes S.Sample.value S.WIDE p.entry) least }
{
    check_size::<S>(p.format, least)?;
    let first = check_lent(p.format, p.a);
    let second = check_lent(p.format, p.b);
    refusal::lower(first, second)
}
