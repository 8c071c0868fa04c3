// Combining the scores of three planes, for other languages. The places lent are written where the answer is 0, and as they were otherwise.
ghost use Rattle.std.specs.Prelude.{◌≡◌};
ghost use Rattle.refusal.specs.First.{answer_number};
ghost use Rattle.combine.specs.Combine.{combined_ssim_of, combined_hvs_of};
ghost use Rattle.fuavelino.specs.Answer.{written};
ghost use Rattle.fuavelino.specs.Combine.{planar, sum_written, weight_written};

use crate::put;
use combine::Planar;

// Three SSIM scores, chroma weighted by c: the sum y + c * (u + v) and its weight 1 + 2c. 0, or 13, then 9.
#[unsafe(no_mangle)]
pub extern "C" fn fuavelino_combine_ssim(
    c: f64,
    y: f64,
    u: f64,
    v: f64,
    sum: &mut f64,
    weight: &mut f64,
) -> u8
    ensures value { result ≡ answer_number (combined_ssim_of c (planar y u v)) }
    ensures sum_after { sum.new ≡ sum_written (combined_ssim_of c (planar y u v)) sum.old }
    ensures weight_after { weight.new ≡ weight_written (combined_ssim_of c (planar y u v)) weight.old }
{
    match combine::ssim(c, Planar { y, u, v }) {
        Ok(combined) => {
            *sum = combined.sum;
            *weight = combined.weight;
            0
        }
        Err(no) => no.number(),
    }
}

// Three PSNR-HVS scores in one, chroma weighted by c: (y + c * (u + v)) / (1 + 2c). 0, or 13, then 9.
#[unsafe(no_mangle)]
pub extern "C" fn fuavelino_combine_hvs(c: f64, y: f64, u: f64, v: f64, score: &mut f64) -> u8
    ensures value { result ≡ answer_number (combined_hvs_of c (planar y u v)) }
    ensures score_after { score.new ≡ written (λ x. x) (combined_hvs_of c (planar y u v)) score.old }
{
    put(combine::hvs(c, Planar { y, u, v }), score)
}
