// The double steps, each rounded once, in the order of the Rust.
ghost use Rattle.std.specs.Prelude.{◌≡◌, ◌*◌};
ghost use Rattle.number.specs.Steps as Steps;
ghost use Rattle.ssim.specs.Score.{with_centre};
ghost use Rattle.ssim.specs.Answer as Answer;

use crate::{Ssim, Totals};
use refusal::Refusal;
use window::Moments;

const SSIM_K1: f64 = 0.01 * 0.01;

const SSIM_K2: f64 = 0.03 * 0.03;

// max² as a double.
pub fn squared(max: u32) -> f64
    ensures { result ≡ Steps.double (max * max) }
{
    number::double(u64::from(max) * u64::from(max))
}

// One centre more. `max2` is the square of the largest sample.
#[tactic(auto, unfolding(crate::specs::Score::with_centre))]
pub fn step(max2: f64, t: Totals, moments: Moments) -> Totals
    ensures { result ≡ with_centre max2 t moments }
{
    let w = number::double(moments.w);
    let mux = number::double(moments.mux);
    let muy = number::double(moments.muy);
    let x2 = number::double(moments.x2);
    let xy = number::double(moments.xy);
    let y2 = number::double(moments.y2);
    let c1 = max2 * SSIM_K1 * (w * w);
    let c2 = max2 * SSIM_K2 * (w * w);
    let mx2 = mux * mux;
    let mxy = mux * muy;
    let my2 = muy * muy;
    let cs = w * (c2 + 2.0 * (xy * w - mxy)) / (x2 * w - mx2 + y2 * w - my2 + c2);
    Totals {
        cs: t.cs + cs,
        ssim: t.ssim + cs * (2.0 * mxy + c1) / (mx2 + my2 + c1),
        ssimw: t.ssimw + w,
    }
}

// The pair, or 9 where it is not finite.
pub fn pair(t: Totals) -> Result<Ssim, Refusal>
    ensures { result ≡ Answer.pair_of t }
{
    let ssim = t.ssim / t.ssimw;
    let cs = t.cs / t.ssimw;
    if number::finite(ssim) & number::finite(cs) {
        Ok(Ssim { ssim, cs })
    } else {
        Err(Refusal::NotFinite)
    }
}
