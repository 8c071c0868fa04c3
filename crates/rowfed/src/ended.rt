// Finish.
ghost use Rattle.std.specs.Prelude.{◌≡◌, ◌≤◌, pos, length};
ghost use Rattle.ssim.specs.Answer.{pair_of};
ghost use Rattle.ssim.specs.Scratch.{cleared};
ghost use Rattle.rowfed.specs.State.{places_of};
ghost use Rattle.rowfed.specs.Finish.{finish_refusal};
ghost use Rattle.rowfed.specs.Inner.Sound.{SoundState};

use crate::{State, possible};
use refusal::Refusal;
use ssim::{Ssim, centre, walk};

// 15 where no samples of either width could give the state; then 8; then 15 where rows are still to come.
#[tactic(auto, unfolding(crate::specs::Finish::finish_tests))]
pub fn check(state: State, lent: usize) -> Result<(), Refusal>
    ensures { result ≡ finish_refusal state lent }
{
    if !possible::is_possible_anyhow(state) {
        return Err(Refusal::State);
    }
    if lent < ssim::scratch_places(state.width, state.taps) {
        return Err(Refusal::Scratch);
    }
    if state.rows != state.height {
        return Err(Refusal::State);
    }
    Ok(())
}

// The pair, and the needed part of the scratch all zero.
pub fn close(state: State, scratch: &mut [i64]) -> Result<Ssim, Refusal>
    requires sound_state { SoundState state }
    requires state_in_bounds { places_of state ≤ length scratch.old }
    ensures value { result ≡ pair_of state.sums }
    ensures scratch_after { scratch.new ≡ cleared (pos 0) (places_of state) scratch.old }
{
    let need = ssim::scratch_places(state.width, state.taps);
    walk::clear(&mut scratch[..need]);
    centre::pair(state.sums)
}
