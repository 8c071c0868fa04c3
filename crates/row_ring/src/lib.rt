// The last rows of two planes in lent scratch, and the centres that can be scored from them. The first places are a ring of `lines` rows, a
// pair of samples to a place, row r at slot r % lines; the places past the ring are for the column sums of one centre row between their
// margins, and are zero between the rows.
#![tactic(auto)]

ghost use Rattle.std.specs.Prelude.{◌≡◌, ℕ, min, ◌+◌, ◌-◌, ◌*◌, ◌/◌, ◌%◌, ◌<◌, ◌≤◌, length, map};
ghost use Rattle.plane.specs.Limits.{side_limit};
ghost use Rattle.plane.specs.Plane.{at, sample_at};
ghost use Rattle.plane.specs.Inner.Seen.{sized, seen, planes, Long};
ghost use Rattle.plane.specs.Sums.{sum_to};
ghost use Rattle.kernel.specs.Kernel.{tap, lent_total};
ghost use Rattle.window.specs.Moments.{moments_at};
ghost use Rattle.window.specs.Inner.Parts.{Kernel};
ghost use Rattle.window.specs.Inner.Columns.{column_to, column_at, Put};
ghost use Rattle.ssim.specs.Score.{row_of};
ghost use Rattle.row_ring.specs.Ring.{ring_places, packed_of, place_at, ring_a, ring_b};
ghost use Rattle.row_ring.specs.Inner.Places.{Clean, Roomy};
ghost use Rattle.row_ring.specs.Taken.{rows_from, scored_after, taken_of};

use plane::{Pair, Sample, Stored};
use ssim::{Totals, walk};
use window::{FiveSums, columns};

pub mod pair;

// The sides of the planes, and the lines of the ring.
#[derive(Clone, Copy, Debug, PartialEq, Eq)]
pub struct Ring {
    pub width: usize,
    pub height: usize,
    pub lines: usize,
}

// What the centres are scored by: the ring, the kernel, and the square of sample_max.
#[derive(Clone, Copy)]
pub struct Scoring<'a> {
    pub ring: Ring,
    pub kernel: &'a [u16],
    pub max2: f64,
}

// The pairs of two rows of samples, to the places from `to` on.
#[tactic(auto, using(window::proofs::Sums::Stores::put_none))]
fn store_pairs<S: Sample>(first: &[S], second: &[S], to: usize, s: &mut [i64])
    requires { (length second.now ≡ length first.now) × (to + length first.now ≤ length s.old) }
    ensures { Put s.old s.new to (length first.now)
        (λ (x : ℕ). packed_of (at (map S.value first.now) x) (at (map S.value second.now) x)) }
{
    // by index: two samples and a place of the ring are met together
    for (x, a) in first.iter().enumerate() {
        pair::put(to + x, a.value(), second[x].value(), s);
    }
}

// Row `i` of a group, to the places from `to` on.
fn store_row<S: Stored>(p: Pair<'_, S>, i: usize, to: usize, s: &mut [i64])
    requires i_lt_height { (i < p.format.height) × (to + p.format.width ≤ length s.old) }
    requires long { Long (sized S.WIDE p.format) (seen S.Sample.value p.a) }
    requires long_2 { Long (sized S.WIDE p.format) (seen S.Sample.value p.b) }
    ensures { Put s.old s.new to p.entry.format.width
        (λ (x : ℕ). packed_of (sample_at (seen S.Sample.value p.entry.a) i x)
        (sample_at (seen S.Sample.value p.entry.b) i x)) }
{
    let width = p.format.width;
    store_pairs(plane::row(p.a, width, i), plane::row(p.b, width, i), to, s);
}

// The taps from `from` up to `upto` down column x of the ring, of which the first stands at place `at` and none past the last line.
fn run(
    s: &[i64],
    ring: Ring,
    kernel: &[u16],
    x: usize,
    y: usize,
    from: usize,
    upto: usize,
    at: usize,
    t: FiveSums,
) -> FiveSums
    requires x_lt_width { (x < ring.width) × (ring_places ring ≤ length s.now) }
    requires from_le_upto { (from ≤ upto) × (upto ≤ length kernel.now) × (length kernel.now / 2 ≤ y + from)
        × (y + upto ≤ length kernel.now / 2 + ring.height) }
    requires at_value { from < upto → (at ≡ place_at ring.width ring.lines (y + from - length kernel.now / 2) x)
        × ((y + from - length kernel.now / 2) % ring.lines + (upto - from) ≤ ring.lines) }
    requires kernel { Kernel kernel.now }
    requires t_value { t ≡ column_to kernel.now ring.height (ring_a s.now ring.width ring.lines)
        (ring_b s.now ring.width ring.lines) x y from }
    ensures { result ≡ column_to kernel.now ring.height (ring_a s.now ring.width ring.lines)
        (ring_b s.now ring.width ring.lines) x y upto }
{
    let mut t = t;
    // by index: a tap and its line of the ring are met together
    for k in from..upto {
        let i = at + (k - from) * ring.width;
        t = columns::tapped(t, kernel[k], pair::first(s, i), pair::second(s, i));
    }
    t
}

// Of the taps from `from` up to `upto` the first past so many lines.
fn turn(from: usize, upto: usize, lines: usize) -> usize
    requires { from ≤ upto }
    ensures { result ≡ min upto (from + lines) }
{
    from + lines.min(upto - from)
}

// The five sums down column x of the ring, the middle in row y: the taps up to the ring's last line, then the others from its first, so
// that the walk itself neither divides nor looks where it is.
fn column(s: &[i64], ring: Ring, kernel: &[u16], x: usize, y: usize) -> FiveSums
    requires x_lt_width { (x < ring.width) × (y < ring.height) × (ring.height ≤ side_limit) }
    requires kernel_len_bound { (length kernel.now ≤ ring.lines) × (ring_places ring ≤ length s.now) }
    requires kernel { Kernel kernel.now }
    ensures { result ≡ column_to kernel.now ring.height (ring_a s.now ring.width ring.lines)
        (ring_b s.now ring.width ring.lines) x y (length kernel.now) }
{
    let n = kernel.len();
    let from = columns::first(n, y);
    let upto = columns::past(n, y, ring.height);
    let slot = (y + from - n / 2) % ring.lines;
    let over = turn(from, upto, ring.lines - slot);
    let none = FiveSums {
        mux: 0,
        muy: 0,
        x2: 0,
        xy: 0,
        y2: 0,
    };
    let at = slot * ring.width + x;
    let t = run(s, ring, kernel, x, y, from, over, at, none);
    run(s, ring, kernel, x, y, over, upto, x, t)
}

// The sums of every column of the ring, the middle in row y, to the places from `to` on, past the ring.
fn fill(ring: Ring, kernel: &[u16], y: usize, to: usize, s: &mut [i64])
    requires y_lt_height { (y < ring.height) × (ring.height ≤ side_limit) × (length kernel.now ≤ ring.lines)
        × (ring_places ring ≤ to) × (to + 5 * ring.width ≤ length s.old) }
    requires kernel { Kernel kernel.now }
    ensures { Put s.old s.new to (5 * ring.width) (column_at kernel.now ring.height
        (ring_a s.old ring.width ring.lines) (ring_b s.old ring.width ring.lines) y) }
{
    // by index: the ring is read and the places past it are written in one slice
    for x in 0..ring.width {
        let t = column(s, ring, kernel, x, y);
        columns::put(to + 5 * x, t, s);
    }
}

// The centres of row y, scored from the ring. The places past it are zero again afterwards.
fn score_row(by: Scoring<'_>, y: usize, t: Totals, s: &mut [i64]) -> Totals
    requires y_lt_height { (y < by.ring.height) × (by.ring.width ≤ side_limit) × (by.ring.height ≤ side_limit) }
    requires roomy { Roomy by.ring by.kernel.now (length s.old) }
    requires clean { Clean by.ring s.old }
    requires kernel { Kernel by.kernel.now }
    requires lent_total_value { lent_total ≡ sum_to (tap by.kernel.now) (length by.kernel.now) }
    ensures value { result ≡ row_of by.entry.max2 (λ (x : ℕ). moments_at by.entry.kernel.now by.entry.ring.width by.entry.ring.height
        (ring_a s.old by.entry.ring.width by.entry.ring.lines) (ring_b s.old by.entry.ring.width by.entry.ring.lines) x y)
        t by.entry.ring.width }
    ensures s_unchanged { s.new ≡ s.old }
{
    let ring = by.ring;
    let kernel = by.kernel;
    let past = ring.lines * ring.width;
    let to = past + 5 * (kernel.len() / 2);
    let end = to + 5 * ring.width;
    fill(ring, kernel, y, to, s);
    let down = window::row::weight(kernel, kernel::LENT_TOTAL, ring.height, y);
    let r = walk::centres(
        &s[past..],
        ring.width,
        kernel,
        kernel::LENT_TOTAL,
        down,
        by.max2,
        t,
    );
    walk::clear(&mut s[to..end]);
    r
}

// The centres of the rows from `from` up to `upto`.
fn score_rows(by: Scoring<'_>, from: usize, upto: usize, t: Totals, s: &mut [i64]) -> Totals
    requires from_le_upto { (from ≤ upto) × (upto ≤ by.ring.height)
        × (by.ring.width ≤ side_limit) × (by.ring.height ≤ side_limit) }
    requires roomy { Roomy by.ring by.kernel.now (length s.old) }
    requires clean { Clean by.ring s.old }
    requires kernel { Kernel by.kernel.now }
    requires lent_total_value { lent_total ≡ sum_to (tap by.kernel.now) (length by.kernel.now) }
    ensures value { result ≡ rows_from by.entry.max2 by.entry.kernel.now by.entry.ring.width by.entry.ring.height
        (ring_a s.old by.entry.ring.width by.entry.ring.lines) (ring_b s.old by.entry.ring.width by.entry.ring.lines) t from (upto - from) }
    ensures s_unchanged { s.new ≡ s.old }
{
    let mut t = t;
    // by number: a row of centres reads the lines of the ring around it
    for y in from..upto {
        t = score_row(by, y, t, s);
    }
    t
}

// How many rows of centres are scored once r rows have come.
pub fn scored_after(r: usize, height: usize, off: usize) -> usize
    requires { r ≤ height }
    ensures { result ≡ scored_after r height off }
{
    if r == height {
        return height;
    }
    r.saturating_sub(off)
}

// Row `i` of a group, which is row `row` of the whole, and then the centres from `from` up to `upto`.
fn take_row<S: Stored>(
    p: Pair<'_, S>,
    i: usize,
    by: Scoring<'_>,
    row: usize,
    from: usize,
    upto: usize,
    t: Totals,
    s: &mut [i64],
) -> Totals
    requires i_lt_height { (i < p.format.height) × (p.format.width ≡ by.ring.width) × (from ≤ upto) × (upto ≤ by.ring.height)
        × (by.ring.width ≤ side_limit) × (by.ring.height ≤ side_limit) }
    requires long { Long (sized S.WIDE p.format) (seen S.Sample.value p.a) }
    requires long_2 { Long (sized S.WIDE p.format) (seen S.Sample.value p.b) }
    requires roomy { Roomy by.ring by.kernel.now (length s.old) }
    requires clean { Clean by.ring s.old }
    requires kernel { Kernel by.kernel.now }
    requires lent_total_value { lent_total ≡ sum_to (tap by.kernel.now) (length by.kernel.now) }
    ensures value { result ≡ rows_from by.entry.max2 by.entry.kernel.now by.entry.ring.width by.entry.ring.height
        (ring_a s.new by.entry.ring.width by.entry.ring.lines) (ring_b s.new by.entry.ring.width by.entry.ring.lines) t from (upto - from) }
    ensures put { Put s.old s.new (row % by.entry.ring.lines * by.entry.ring.width) by.entry.ring.width
        (λ (x : ℕ). packed_of (sample_at (seen S.Sample.value p.entry.a) i x)
        (sample_at (seen S.Sample.value p.entry.b) i x)) }
{
    let to = row % by.ring.lines * by.ring.width;
    store_row(p, i, to, s);
    score_rows(by, from, upto, t, s)
}

// Every row of a group, of which the first is row `received` of the whole.
pub fn take_rows<S: Stored>(
    p: Pair<'_, S>,
    by: Scoring<'_>,
    received: usize,
    t: Totals,
    s: &mut [i64],
) -> Totals
    requires height_bound { (received + p.format.height ≤ by.ring.height) × (p.format.width ≡ by.ring.width)
        × (by.ring.width ≤ side_limit) × (by.ring.height ≤ side_limit) }
    requires long { 0 < p.format.height → Long (sized S.WIDE p.format) (seen S.Sample.value p.a)
        × Long (sized S.WIDE p.format) (seen S.Sample.value p.b) }
    requires roomy { Roomy by.ring by.kernel.now (length s.old) }
    requires clean { Clean by.ring s.old }
    requires kernel { Kernel by.kernel.now }
    requires lent_total_value { lent_total ≡ sum_to (tap by.kernel.now) (length by.kernel.now) }
    ensures { record { places = s.new; totals = result } ≡ taken_of by.entry.max2 by.entry.kernel.now by.entry.ring
        (planes S.Sample.value S.WIDE p.entry) received
        (record { places = s.old; totals = t }) p.entry.format.height }
{
    let off = by.kernel.len() / 2;
    let height = by.ring.height;
    let mut t = t;
    // by number: a row begins at i times each plane's own stride, and how many are scored follows from its number
    for i in 0..p.format.height {
        let row = received + i;
        let from = scored_after(row, height, off);
        let upto = scored_after(row + 1, height, off);
        t = take_row(p, i, by, row, from, upto, t, s);
    }
    t
}
