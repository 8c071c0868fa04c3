// Five pairs, judged.
ghost use Rattle.std.specs.Prelude.{◌≡◌};
ghost use Rattle.msssim.specs.Answer.{all_finite, five_of};

use crate::SCALES;
use refusal::Refusal;
use ssim::Ssim;

// None of their numbers is infinite or not a number.
fn all_finite(pairs: &[Ssim]) -> bool
    ensures { result ≡ all_finite pairs.now }
{
    pairs
        .iter()
        .all(|p| number::finite(p.ssim) & number::finite(p.cs))
}

// The five pairs, or 9 where one of the ten numbers is not finite.
pub fn five(pairs: [Ssim; SCALES]) -> Result<[Ssim; SCALES], Refusal>
    ensures { result ≡ five_of pairs }
{
    if !all_finite(&pairs) {
        return Err(Refusal::NotFinite);
    }
    Ok(pairs)
}
