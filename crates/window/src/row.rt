// Along the row: at each centre the five sums over the column sums, and the weight. The columns stand between margins of zeros, half a
// kernel wide, so that the sums need no limits.
ghost use Rattle.std.specs.Prelude.{◌≡◌, ℕ, ◌+◌, ◌*◌, ◌/◌, ◌<◌, ◌≤◌, T, pos, nat_abs, length};
ghost use Rattle.std.specs.Int.Signed.{non_neg};
ghost use Rattle.plane.specs.Limits.{side_limit};
ghost use Rattle.plane.specs.Sums.{sum_to};
ghost use Rattle.kernel.specs.Kernel.{tap, fixed_total};
ghost use Rattle.window.specs.Inner.Parts.{Kernel, tapped_of, Room, nth, five_sums_of, across_of, weight_of};
ghost use Rattle.window.specs.Inner.Columns.{at_z, cell_of, columns_of, ColumnSum, ColumnSums, moments_in};

use crate::{FiveSums, Moments, columns};

// A place of the scratch as a number.
fn unsigned(z: i64) -> u64
    requires { T (non_neg z) }
    ensures { pos result ≡ z }
{
    z as u64
}

// What stands at place i.
fn get(cols: &[i64], i: usize) -> u64
    requires i_in_bounds { i < length cols.now }
    requires column_sum { ColumnSum (at_z cols.now i) }
    ensures { result ≡ nat_abs (at_z cols.now i) }
{
    unsigned(cols[i])
}

// The five sums of column c, of n that stand there.
fn cells(cols: &[i64], n: usize, c: usize) -> FiveSums
    requires c_lt_n { (c < n) × (5 * n ≤ length cols.now) }
    requires column_sums { ColumnSums cols.now (5 * n) }
    ensures { result ≡ five_sums_of (λ (m : ℕ). cell_of cols.now m c) }
{
    let at = 5 * c;
    FiveSums {
        mux: get(cols, at),
        muy: get(cols, at + 1),
        x2: get(cols, at + 2),
        xy: get(cols, at + 3),
        y2: get(cols, at + 4),
    }
}

// The five sums of columns i and j together.
fn pair(cols: &[i64], n: usize, i: usize, j: usize) -> FiveSums
    requires i_lt_n { (i < n) × (j < n) × (5 * n ≤ length cols.now) }
    requires column_sums { ColumnSums cols.now (5 * n) }
    ensures { result ≡ five_sums_of (λ (m : ℕ). cell_of cols.now m i + cell_of cols.now m j) }
{
    let s = cells(cols, n, i);
    let u = cells(cols, n, j);
    let mux = s.mux + u.mux;
    let muy = s.muy + u.muy;
    let x2 = s.x2 + u.x2;
    let xy = s.xy + u.xy;
    let y2 = s.y2 + u.y2;
    FiveSums {
        mux,
        muy,
        x2,
        xy,
        y2,
    }
}

// One tap more of each sum.
fn tapped(t: FiveSums, tap: u16, s: FiveSums) -> FiveSums
    requires { Room t tap (nth s) }
    ensures { result ≡ tapped_of t tap (nth s) }
{
    let k = u64::from(tap);
    let mux = t.mux + k * s.mux;
    let muy = t.muy + k * s.muy;
    let x2 = t.x2 + k * s.x2;
    let xy = t.xy + k * s.xy;
    let y2 = t.y2 + k * s.y2;
    FiveSums {
        mux,
        muy,
        x2,
        xy,
        y2,
    }
}

// No tap yet.
fn none() -> FiveSums
    ensures { result ≡ five_sums_of (λ (m : ℕ). 0) }
{
    FiveSums {
        mux: 0,
        muy: 0,
        x2: 0,
        xy: 0,
        y2: 0,
    }
}

// The five sums along the columns from x on, which begin with half a kernel of zeros and end with as many. A kernel is the same from both
// ends, so that two columns share each tap but the middle one.
#[tactic(auto, using(crate::proofs::Sums::Folded::folded_steps))]
fn along(cols: &[i64], n: usize, kernel: &[u16], x: usize) -> FiveSums
    requires kernel_bound { (x + 2 * (length kernel.now / 2) < n) × (5 * n ≤ length cols.now) }
    requires kernel { Kernel kernel.now }
    requires column_sums { ColumnSums cols.now (5 * n) }
    ensures { result ≡ five_sums_of (λ (m : ℕ). across_of kernel.now (cell_of cols.now m) x) }
{
    let off = kernel.len() / 2;
    let mut t = tapped(none(), kernel[off], cells(cols, n, x + off));
    // by index: a tap is read with two columns, as far from the middle on either side
    for k in 0..off {
        t = tapped(t, kernel[k], pair(cols, n, x + k, x + 2 * off - k));
    }
    t
}

// The taps that lie inside a side, the middle at x.
#[tactic(auto, using(crate::proofs::Sums::Windows::part_first, crate::proofs::Sums::Windows::part_last))]
fn taps_inside(kernel: &[u16], side: usize, x: usize) -> u64
    requires x_lt_side { (x < side) × (side ≤ side_limit) }
    requires kernel { Kernel kernel.now }
    ensures { result ≡ weight_of kernel.now side x }
{
    let n = kernel.len();
    let mut sum = 0;
    for tap in &kernel[columns::first(n, x)..columns::past(n, x, side)] {
        sum += u64::from(*tap);
    }
    sum
}

// The same, with no walk where all taps lie inside: `total` is what they sum to.
#[tactic(auto, using(crate::proofs::Sums::Windows::whole_inside))]
pub fn weight(kernel: &[u16], total: u64, side: usize, x: usize) -> u64
    requires x_lt_side { (x < side) × (side ≤ side_limit) }
    requires kernel { Kernel kernel.now }
    requires total_value { total ≡ sum_to (tap kernel.now) (length kernel.now) }
    ensures { result ≡ weight_of kernel.now side x }
{
    let off = kernel.len() / 2;
    if (off <= x) & (x + off < side) {
        return total;
    }
    taps_inside(kernel, side, x)
}

// The six moments at x. `down` is the weight of the rows.
#[tactic(auto, unfolding(crate::specs::Inner::Columns::moments_in))]
pub fn moments_at(
    cols: &[i64],
    width: usize,
    kernel: &[u16],
    total: u64,
    down: u64,
    x: usize,
) -> Moments
    requires x_lt_width { (x < width) × (width ≤ side_limit) × (5 * columns_of kernel.now width ≤ length cols.now)
        × (down ≤ fixed_total) }
    requires kernel { Kernel kernel.now }
    requires total_value { total ≡ sum_to (tap kernel.now) (length kernel.now) }
    requires column_sums { ColumnSums cols.now (5 * columns_of kernel.now width) }
    ensures { result ≡ moments_in kernel.now cols.now width down x }
{
    let t = along(cols, width + 2 * (kernel.len() / 2), kernel, x);
    let w = down * weight(kernel, total, width, x);
    Moments {
        mux: t.mux,
        muy: t.muy,
        x2: t.x2,
        xy: t.xy,
        y2: t.y2,
        w,
    }
}
