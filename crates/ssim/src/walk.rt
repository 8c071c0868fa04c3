// The walk over the centres, row by row.
ghost use Rattle.std.specs.Prelude.{◌≡◌, ◌*◌, ◌≤◌, pos, length, replicate};
ghost use Rattle.plane.specs.Limits.{side_limit};
ghost use Rattle.plane.specs.Sums.{sum_to};
ghost use Rattle.kernel.specs.Kernel.{tap, fixed_total};
ghost use Rattle.window.specs.Inner.Parts.{Kernel};
ghost use Rattle.window.specs.Inner.Columns.{on_grid, Summable, columns_of, Margins, ColumnSums, moments_in};
ghost use Rattle.ssim.specs.Score.{row_of};
ghost use Rattle.ssim.specs.Inner.Walk.{totals_on};

use crate::{Totals, centre};
use plane::{Pair, Sample};

// The centres of one row, whose column sums stand in `cols`. `down` is the weight of the rows, `total` what all taps sum to.
#[tactic(auto, using(number::proofs::Folds::fold_none, number::proofs::Folds::fold_more))]
pub fn centres(
    cols: &[i64],
    width: usize,
    kernel: &[u16],
    total: u64,
    down: u64,
    max2: f64,
    mut t: Totals,
) -> Totals
    requires width_le_side_limit { (width ≤ side_limit) × (5 * columns_of kernel.now width ≤ length cols.now)
        × (down ≤ fixed_total) }
    requires kernel { Kernel kernel.now }
    requires total_value { total ≡ sum_to (tap kernel.now) (length kernel.now) }
    requires column_sums { ColumnSums cols.now (5 * columns_of kernel.now width) }
    ensures { result ≡ row_of max2 (moments_in kernel.now cols.now width down) t width }
{
    // by index: a centre is a place between the columns, and reads many of them
    for x in 0..width {
        t = centre::step(
            max2,
            t,
            window::row::moments_at(cols, width, kernel, total, down, x),
        );
    }
    t
}

// Every place to 0.
pub fn clear(s: &mut [i64])
    ensures { s.new ≡ replicate (length s.old) (pos 0) }
{
    s.fill(0);
}

// Every row: its column sums, between the margins of zeros that stand there, then its centres.
#[tactic(auto, using(plane::proofs::Limits::side_small, kernel::proofs::Says::taps_room, crate::proofs::Same::totals_none))]
fn rows<S: Sample>(
    p: Pair<'_, S>,
    kernel: &[u16],
    total: u64,
    max2: f64,
    cols: &mut [i64],
) -> Totals
    requires width_le_side_limit { (p.format.width ≤ side_limit) × (p.format.height ≤ side_limit)
        × (5 * columns_of kernel.now p.format.width ≤ length cols.old) }
    requires margins { Margins cols.old kernel.now p.format.width }
    requires kernel { Kernel kernel.now }
    requires total_value { total ≡ sum_to (tap kernel.now) (length kernel.now) }
    requires summable { 1 ≤ p.format.height → Summable (on_grid S.value p) }
    ensures { result ≡ totals_on max2 kernel.now (on_grid S.value p.entry) p.entry.format.height }
{
    let width = p.format.width;
    let height = p.format.height;
    let start = 5 * (kernel.len() / 2);
    let end = start + 5 * width;
    let mut t = Totals::default();
    // by index: a row is read by its number, with those around it
    for y in 0..height {
        window::columns::fill(p, kernel, y, &mut cols[start..end]);
        let down = window::row::weight(kernel, total, height, y);
        t = centres(cols, width, kernel, total, down, max2, t);
    }
    t
}

// The sums over every centre. All of the scratch is zero afterwards.
pub fn totals<S: Sample>(
    p: Pair<'_, S>,
    kernel: &[u16],
    total: u64,
    max2: f64,
    scratch: &mut [i64],
) -> Totals
    requires width_le_side_limit { (p.format.width ≤ side_limit) × (p.format.height ≤ side_limit)
        × (5 * columns_of kernel.now p.format.width ≤ length scratch.old) }
    requires kernel { Kernel kernel.now }
    requires total_value { total ≡ sum_to (tap kernel.now) (length kernel.now) }
    requires summable { 1 ≤ p.format.height → Summable (on_grid S.value p) }
    ensures value { result ≡ totals_on max2 kernel.now (on_grid S.value p.entry) p.entry.format.height }
    ensures scratch_after { scratch.new ≡ replicate (length scratch.old) (pos 0) }
{
    clear(scratch);
    let t = rows(p, kernel, total, max2, scratch);
    clear(scratch);
    t
}
