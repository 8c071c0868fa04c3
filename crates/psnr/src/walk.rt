// The sum of the squared differences over the visible samples of two planes, and test 6 on the way: words are read once for both. Nobody
// above knows how the rows are walked.
ghost use Rattle.std.specs.Prelude.{◌≡◌, ℕ, ◌*◌, ◌%◌, ◌^◌, ◌≤◌, leb, true, false, length, map};
ghost use Rattle.plane.specs.Limits.{side_limit, most_depth};
ghost use Rattle.plane.specs.Inner.Seen.{planes};
ghost use Rattle.psnr.specs.Squared.{square_of};
ghost use Rattle.psnr.specs.Inner.Walk.{word_most, Readable, squares_in, bits_in, part_length};
ghost use Rattle.psnr.specs.Inner.Walk.{walked_if, pair_suits, row_walked, walked_at, walked_of};

use plane::{Pair, Stored};
use refusal::Refusal;

// Samples whose rows can be compared: bytes and words have each their own way to add up squares.
pub trait Compared: Stored {
    // No square is larger.
    ghost most_square: { ℕ };

    // (a - b)²
    fn square(self, other: Self) -> u32
        ensures value { result ≡ square_of (Self.value self) (Self.value other) }
        ensures upper_bound { result ≤ most_square };

    // The sum over two rows, or that a sample is above sample_max.
    fn row(a: &[Self], b: &[Self], depth: u32) -> Result<u64, Refusal>
        requires { (length a.now ≡ length b.now) × (length a.now ≤ side_limit) × (depth ≤ most_depth Self.WIDE) }
        ensures { result ≡ row_walked depth (map Self.value a.now) (map Self.value b.now) (length a.now) };
}

impl Compared for u8 {
    ghost most_square = { word_most };

    #[tactic(auto, unfolding(crate::specs::Squared::square_of))]
    fn square(self, other: u8) -> u32 {
        let d = u32::from(self.abs_diff(other));
        d * d
    }

    #[tactic(auto, unfolding(crate::specs::Inner::Walk::row_walked))]
    fn row(a: &[u8], b: &[u8], depth: u32) -> Result<u64, Refusal> {
        if suit8(a, b, depth) {
            Ok(u64::from(sum8(a, b)))
        } else {
            Err(Refusal::Sample)
        }
    }
}

impl Compared for u16 {
    ghost most_square = { word_most * word_most };

    #[tactic(auto, unfolding(crate::specs::Squared::square_of))]
    fn square(self, other: u16) -> u32 {
        let d = u32::from(self.abs_diff(other));
        d * d
    }

    fn row(a: &[u16], b: &[u16], depth: u32) -> Result<u64, Refusal> {
        row16(a, b, depth)
    }
}

// ---- bytes

// How many bytes are added up at a time: a count that the compiler knows, so that their loop becomes straight code.
const STRETCH: usize = 128;

// The sum over two parts of rows of bytes. So few fit 32 bits.
#[tactic(auto, using(plane::proofs::Limits::side_small, crate::proofs::Parts::part_steps))]
fn part8(a: &[u8], b: &[u8]) -> u32
    requires { (length a.now ≡ length b.now) × (length a.now ≤ side_limit) }
    ensures value { result ≡ squares_in a.now b.now (length a.now) }
    ensures upper_bound { result ≤ length a.now * word_most }
{
    let mut sum = 0;
    for (p, q) in a.iter().zip(b) {
        sum += p.square(*q);
    }
    sum
}

// The sum over two rows of bytes.
#[tactic(auto, using(plane::proofs::Limits::side_small, crate::proofs::Parts::in_none))]
fn sum8(a: &[u8], b: &[u8]) -> u32
    requires { (length a.now ≡ length b.now) × (length a.now ≤ side_limit) }
    ensures { result ≡ squares_in a.now b.now (length a.now) }
{
    // a narrow row is one part
    if a.len() < STRETCH {
        return part8(a, b);
    }
    let (whole_a, rest_a) = a.as_chunks::<STRETCH>();
    let (whole_b, rest_b) = b.as_chunks::<STRETCH>();
    let mut sum = 0;
    for (p, q) in whole_a.iter().zip(whole_b) {
        sum += part8(p, q);
    }
    sum + part8(rest_a, rest_b)
}

// Whether no sample of two rows of bytes is above sample_max. None can be at the largest depth of bytes, so those are not read.
#[tactic(auto, using(plane::proofs::Depth::depth_small, crate::proofs::Parts::suits_holds))]
fn suit8(a: &[u8], b: &[u8], depth: u32) -> bool
    requires { (length a.now ≡ length b.now) × (depth ≤ most_depth false) }
    ensures { result ≡ pair_suits depth a.now b.now (length a.now) }
{
    let max = plane::sample_max(depth);
    if plane::BYTE_MAX <= max {
        return true;
    }
    plane::none_above(a, max as u8) && plane::none_above(b, max as u8)
}

// ---- words

// How many squares fit 32 bits, where no sample has more bits than the depth.
#[tactic(auto, using(crate::proofs::Parts::part_shifted), unfolding(plane::specs::Limits::most_depth))]
fn part_length(depth: u32) -> usize
    requires { depth ≤ most_depth true }
    ensures { result ≡ part_length depth }
{
    1usize << (32 - 2 * depth)
}

// Of two parts of rows of words: the sum, modulo 2^32, and every bit that is in some sample.
#[derive(Clone, Copy)]
struct Part {
    sum: u32,
    bits: u16,
}

// There is no branch in its loop. Where no bit is too high, and the part is short enough, the sum has not wrapped: the caller sees to both.
#[tactic(auto, using(crate::proofs::Parts::part_steps))]
fn part16(a: &[u16], b: &[u16]) -> Part
    requires { length a.now ≡ length b.now }
    ensures sum_value { result.sum ≡ squares_in a.now b.now (length a.now) % 2 ^ 32 }
    ensures bits_value { result.bits ≡ bits_in a.now b.now (length a.now) }
{
    let mut sum = 0u32;
    let mut bits = 0u16;
    for (p, q) in a.iter().zip(b) {
        sum = sum.wrapping_add(p.square(*q));
        bits |= *p | *q;
    }
    Part { sum, bits }
}

// The sum of a part, or that one of its samples is above `max`.
fn told(found: Part, max: u32) -> Result<u64, Refusal>
    ensures { result ≡ walked_if (leb found.bits max) found.sum }
{
    if u32::from(found.bits) > max {
        return Err(Refusal::Sample);
    }
    Ok(u64::from(found.sum))
}

// The sum over two rows of words, part by part, or that a sample is above sample_max. Most rows are one part.
#[tactic(auto, using(plane::proofs::Depth::depth_small, crate::proofs::Parts::part_some), unfolding(crate::specs::Inner::Walk::row_walked))]
fn row16(a: &[u16], b: &[u16], depth: u32) -> Result<u64, Refusal>
    requires { (length a.now ≡ length b.now) × (length a.now ≤ side_limit) × (depth ≤ most_depth true) }
    ensures { result ≡ row_walked depth a.now b.now (length a.now) }
{
    let max = plane::sample_max(depth);
    let size = part_length(depth);
    if a.len() <= size {
        return told(part16(a, b), max);
    }
    let mut sum = 0u64;
    for (p, q) in a.chunks(size).zip(b.chunks(size)) {
        sum += told(part16(p, q), max)?;
    }
    Ok(sum)
}

// ---- planes

// The sum over all rows, or that a sample is above sample_max; no row is read after one in which a sample is.
pub fn rows<S: Compared>(p: Pair<'_, S>) -> Result<u64, Refusal>
    requires { Readable (planes S.Sample.value S.WIDE p) }
    ensures { result ≡ walked_of (planes S.Sample.value S.WIDE p.entry) }
{
    let width = p.format.width;
    let mut sum = 0u64;
    // by index: a row begins at y times each plane's own stride
    for y in 0..p.format.height {
        let first = plane::row(p.a, width, y);
        let second = plane::row(p.b, width, y);
        sum += S::row(first, second, p.format.depth)?;
    }
    Ok(sum)
}
