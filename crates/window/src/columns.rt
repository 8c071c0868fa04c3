// Down the columns: for one centre row, the five sums of every column into lent scratch, five places to a column. This is the only
// part that reads samples.
ghost use Rattle.std.specs.Prelude.{◌≡◌, ℕ, ◌+◌, ◌-◌, ◌*◌, ◌/◌, ◌<◌, ◌≤◌, pos, length, set};
ghost use Rattle.plane.specs.Limits.{side_limit};
ghost use Rattle.plane.specs.Plane.{sample_at};
ghost use Rattle.plane.specs.Inner.Seen.{seen};
ghost use Rattle.kernel.specs.Kernel.{most_taps};
ghost use Rattle.window.specs.Inner.Parts.{Kernel, quant_of, tapped_of, Room};
ghost use Rattle.window.specs.Inner.Columns.{on_grid, Summable, column_of, HoldsRow, Fits};

use crate::FiveSums;
use plane::{Pair, Plane, Sample};

// Of a kernel of n taps with its middle at x, the first tap that lies inside a side.
pub fn first(n: usize, x: usize) -> usize
    ensures { result ≡ n / 2 - x }
{
    (n / 2).saturating_sub(x)
}

// The same: the tap past the last inside.
#[tactic(auto, using(plane::proofs::Limits::side_small, kernel::proofs::Says::taps_room))]
pub fn past(n: usize, x: usize, side: usize) -> usize
    requires { (n ≡ 2 * (n / 2) + 1) × (n ≤ most_taps) × (x < side) × (side ≤ side_limit) }
    ensures { result ≡ n - (x + n / 2 + 1 - side) }
{
    n - (x + n / 2 + 1).saturating_sub(side)
}

// The sample at row r and column c, wider.
#[tactic(auto, using(plane::proofs::All::at_value))]
fn sample<S: Sample>(p: Plane<'_, S>, r: usize, c: usize) -> u64
    requires { r * p.stride + c < length p.samples.now }
    ensures { result ≡ sample_at (seen S.value p.entry) r c }
{
    u64::from(p.samples[r * p.stride + c].value())
}

// One tap more over a pair of samples.
pub fn tapped(t: FiveSums, tap: u16, a: u64, b: u64) -> FiveSums
    requires { Room t tap (λ (m : ℕ). quant_of m a b) }
    ensures { result ≡ tapped_of t tap (λ (m : ℕ). quant_of m a b) }
{
    let k = u64::from(tap);
    let ka = k * a;
    let kb = k * b;
    let mux = t.mux + ka;
    let muy = t.muy + kb;
    let x2 = t.x2 + ka * a;
    let xy = t.xy + ka * b;
    let y2 = t.y2 + kb * b;
    FiveSums {
        mux,
        muy,
        x2,
        xy,
        y2,
    }
}

// The five sums down column x of two planes, the middle in row y.
#[tactic(auto, using(crate::proofs::Sums::Column::down_column))]
fn column<S: Sample>(p: Pair<'_, S>, kernel: &[u16], x: usize, y: usize) -> FiveSums
    requires x_lt_width { (x < p.format.width) × (y < p.format.height) × (p.format.height ≤ side_limit) }
    requires kernel { Kernel kernel.now }
    requires summable { Summable (on_grid S.value p) }
    ensures { result ≡ column_of kernel.now (on_grid S.value p.entry) x y }
{
    let n = kernel.len();
    let off = n / 2;
    let mut t = FiveSums {
        mux: 0,
        muy: 0,
        x2: 0,
        xy: 0,
        y2: 0,
    };
    // by index: a tap and what stands below it in both planes are read together
    for k in first(n, y)..past(n, y, p.format.height) {
        let r = y + k - off;
        t = tapped(t, kernel[k], sample(p.a, r, x), sample(p.b, r, x));
    }
    t
}

// Five sums into scratch from `at` on.
pub fn put(at: usize, t: FiveSums, cols: &mut [i64])
    requires at_in_bounds { at + 5 ≤ length cols.old }
    requires fits { Fits t }
    ensures { cols.new ≡ set (set (set (set (set cols.old at (pos t.mux)) (at + 1) (pos t.muy))
        (at + 2) (pos t.x2)) (at + 3) (pos t.xy)) (at + 4) (pos t.y2) }
{
    cols[at] = t.mux as i64;
    cols[at + 1] = t.muy as i64;
    cols[at + 2] = t.x2 as i64;
    cols[at + 3] = t.xy as i64;
    cols[at + 4] = t.y2 as i64;
}

// The sums of every column, the middle in row y.
#[tactic(auto, using(crate::proofs::Sums::Held::filled_steps))]
pub fn fill<S: Sample>(p: Pair<'_, S>, kernel: &[u16], y: usize, cols: &mut [i64])
    requires y_lt_height { (y < p.format.height) × (p.format.width ≤ side_limit) × (p.format.height ≤ side_limit)
        × (5 * p.format.width ≡ length cols.old) }
    requires kernel { Kernel kernel.now }
    requires summable { Summable (on_grid S.value p) }
    ensures { HoldsRow cols.new (5 * p.entry.format.width) kernel.now (on_grid S.value p.entry) y }
{
    // by index: `column` reads a column of the planes by its number, and chunks of `cols` would be no plainer
    for x in 0..p.format.width {
        let t = column(p, kernel, x, y);
        put(5 * x, t, cols);
    }
}
