// The kernels of SSIM that are asked for most, by the height of a plane that is no narrower than high. SCOPE, "The chart of kernels".
#![tactic(auto)]

ghost use Rattle.std.specs.Prelude.{◌≡◌, false, true, length, map, MatchOption};
ghost use Rattle.kernel_chart.specs.Rows.{chart};
ghost use Rattle.kernel_chart.specs.Chart.{answer_by, after_by, listed, kernel_of, charted_of, taps_after};
ghost use Rattle.kernel_chart.specs.Inner.Room.{room_refusal};

mod rows;

use refusal::Refusal;
use rows::Row;

// The rows, which are the chart's.
#[tactic(auto, unfolding(crate::specs::Rows::chart))]
fn all_rows() -> &'static [Row]
    ensures { map (λ row. (row.height, row.taps.now)) result.now ≡ chart }
{
    &rows::ROWS
}

// The row that has this height, if one has.
fn find(height: usize) -> Option<&'static Row>
    ensures { MatchOption result (listed height ≡ false) (λ row. (listed height ≡ true) × (row.now.taps.now ≡ kernel_of height)) }
{
    all_rows().iter().find(|row| row.height == height)
}

// Writes these taps to the first places of `taps`, where these are enough, and counts them.
fn put(ker: &[u16], taps: &mut [u16]) -> Result<usize, Refusal>
    ensures value { result ≡ answer_by (room_refusal (length ker.now) (length taps.old)) (length ker.now) }
    ensures taps_after { taps.new ≡ after_by (room_refusal (length ker.now) (length taps.old)) ker.now taps.old }
{
    let n = ker.len();
    if taps.len() < n {
        return Err(Refusal::Scratch);
    }
    // place by place: `copy_from_slice` would have an archive ask for `memmove` from outside
    for (k, place) in taps[..n].iter_mut().enumerate() {
        *place = ker[k];
    }
    Ok(n)
}

// The kernel for planes of this height, to the first places of `taps`: how many taps it has.
#[tactic(auto, using(crate::proofs::Row::row_facts))]
pub fn kernel_for(height: usize, taps: &mut [u16]) -> Result<usize, Refusal>
    ensures value { result ≡ charted_of height taps.old }
    ensures taps_after { taps.new ≡ taps_after height taps.old }
{
    let row = find(height).ok_or(Refusal::Height)?;
    put(row.taps, taps)
}
