// The walk over the centres, row by row.
ghost use Rattle.std.specs.Prelude.{◌≡◌, true, ℕ, ◌<◌};
ghost use Rattle.plane.specs.Plane.{sample_at};
ghost use Rattle.plane.specs.Inner.Seen.{seen, planes};
ghost use Rattle.plane.specs.Inner.Lawful.{AcceptedPair};
ghost use Rattle.kernel.specs.Kernel.{lent_total, lawful};
ghost use Rattle.window.specs.Moments.{moments_at};
ghost use Rattle.ssim.specs.Score.{row_of, totals_in};

use crate::sums;
use plane::{Pair, Stored};
use ssim::Totals;

// The centres of row y more.
#[tactic(auto, using(number::proofs::Folds::fold_none, number::proofs::Folds::fold_more))]
fn centres<S: Stored>(p: Pair<'_, S>, kernel: &[u16], max2: f64, mut t: Totals, y: usize) -> Totals
    requires y_lt_height { y < p.format.height }
    requires accepted_pair { AcceptedPair (planes S.Sample.value S.WIDE p) 0 }
    requires kernel_value { lawful lent_total kernel.now ≡ true }
    ensures { result ≡ row_of max2 (λ (x : ℕ). moments_at kernel.now p.entry.format.width p.entry.format.height
        (sample_at (seen S.Sample.value p.entry.a)) (sample_at (seen S.Sample.value p.entry.b)) x y) t p.entry.format.width }
{
    // by index: a centre is two numbers, its row and its column
    for x in 0..p.format.width {
        t = ssim::centre::step(max2, t, sums::moments_at(p, kernel, x, y));
    }
    t
}

// The sums over every centre.
#[tactic(auto, using(crate::proofs::Rows::totals_none))]
pub fn totals<S: Stored>(p: Pair<'_, S>, kernel: &[u16], max2: f64) -> Totals
    requires accepted_pair { AcceptedPair (planes S.Sample.value S.WIDE p) 0 }
    requires kernel_value { lawful lent_total kernel.now ≡ true }
    ensures { result ≡ totals_in max2 kernel.now (planes S.Sample.value S.WIDE p.entry) p.entry.format.height }
{
    let mut t = Totals::default();
    // by index: as in `centres`
    for y in 0..p.format.height {
        t = centres(p, kernel, max2, t, y);
    }
    t
}
