// The scores of three planes in one figure, the two chroma planes weighted by c; after `calculate_frame_ssim` and
// `calculate_frame_psnr_hvs`. SCOPE, "HVS, SSIM and scales", Combining.
#![tactic(auto)]

ghost use Rattle.std.specs.Prelude.{◌≡◌};
ghost use Rattle.combine.specs.Combine.{weighted_sum, whole_weight, visual_score, combinable, combined_ssim_of, combined_hvs_of};

use refusal::Refusal;

// The scores of the three planes.
#[derive(Clone, Copy, Debug, PartialEq)]
pub struct Planar {
    pub y: f64,
    pub u: f64,
    pub v: f64,
}

// What combining SSIM answers: the weighted sum, and the weight that belongs to it.
#[derive(Clone, Copy, Debug, PartialEq)]
pub struct CombinedSsim {
    pub sum: f64,
    pub weight: f64,
}

// Whether the weight is from 0 to 1 and the three numbers are finite.
#[tactic(auto, unfolding(crate::specs::Combine::combinable))]
fn combinable(c: f64, scores: Planar) -> bool
    ensures { result ≡ combinable c scores }
{
    // a range with `contains` was tried, and the proof did not close: the search does not look into what it promises of two doubles
    let three = number::finite(scores.y) && number::finite(scores.u) && number::finite(scores.v);
    0.0 <= c && c <= 1.0 && three
}

#[tactic(auto, unfolding(crate::specs::Combine::weighted_sum))]
fn weighted_sum(c: f64, scores: Planar) -> f64
    ensures { result ≡ weighted_sum c scores }
{
    scores.y + c * (scores.u + scores.v)
}

#[tactic(auto, unfolding(crate::specs::Combine::whole_weight))]
fn whole_weight(c: f64) -> f64
    ensures { result ≡ whole_weight c }
{
    1.0 + 2.0 * c
}

#[tactic(auto, unfolding(crate::specs::Combine::visual_score))]
fn visual_score(c: f64, scores: Planar) -> f64
    ensures { result ≡ visual_score c scores }
{
    weighted_sum(c, scores) / whole_weight(c)
}

// The weighted sum of three SSIM scores and its weight: 13 where the weight or a score is unlawful, 9 where a result is not finite.
pub fn ssim(c: f64, scores: Planar) -> Result<CombinedSsim, Refusal>
    ensures { result ≡ combined_ssim_of c scores }
{
    if !combinable(c, scores) {
        return Err(Refusal::Weight);
    }
    let sum = weighted_sum(c, scores);
    let weight = whole_weight(c);
    if number::finite(sum) && number::finite(weight) {
        Ok(CombinedSsim { sum, weight })
    } else {
        Err(Refusal::NotFinite)
    }
}

// Three PSNR-HVS scores in one: 13 where the weight or a score is unlawful, 9 where the result is not finite.
pub fn hvs(c: f64, scores: Planar) -> Result<f64, Refusal>
    ensures { result ≡ combined_hvs_of c scores }
{
    if !combinable(c, scores) {
        return Err(Refusal::Weight);
    }
    let score = visual_score(c, scores);
    if number::finite(score) {
        Ok(score)
    } else {
        Err(Refusal::NotFinite)
    }
}
