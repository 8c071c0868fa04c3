// Begin.
ghost use Rattle.std.specs.Prelude.{◌≡◌, ◌≤◌, length};
ghost use Rattle.plane.specs.Inner.Seen.{sized};
ghost use Rattle.kernel.specs.Kernel.{most_taps};
ghost use Rattle.ssim.specs.Score.{no_totals};
ghost use Rattle.rowfed.specs.State.{held_kernel};
ghost use Rattle.rowfed.specs.Begin.{begin_refusal, begun_state};

use crate::State;
use plane::{Format, Stored};
use refusal::Refusal;
use ssim::Totals;

// The lowest of 1 2 7 8 that applies.
#[tactic(auto, using(crate::proofs::Accept::begin_in_parts))]
pub fn check<S: Stored>(format: Format, kernel: &[u16], lent: usize) -> Result<(), Refusal>
    ensures { result ≡ begin_refusal (sized S.WIDE format) kernel.now lent }
{
    plane::check_size::<S>(format, 0)?;
    if !kernel::is_lawful(kernel) {
        return Err(Refusal::Kernel);
    }
    if lent < ssim::scratch_places(format.width, kernel.len()) {
        return Err(Refusal::Scratch);
    }
    Ok(())
}

// A kernel in the places of a state: its taps, then zeros.
fn held(kernel: &[u16]) -> [u16; 255]
    requires { length kernel.now ≤ most_taps }
    ensures { result ≡ held_kernel kernel.now }
{
    let mut places = [0u16; 255];
    places[..kernel.len()].copy_from_slice(kernel);
    places
}

// Before the first centre.
fn no_sums() -> Totals
    ensures { result ≡ no_totals }
{
    Totals {
        ssim: 0.0,
        cs: 0.0,
        ssimw: 0.0,
    }
}

// No row has come.
pub fn new_state<S: Stored>(format: Format, kernel: &[u16]) -> State
    requires { length kernel.now ≤ most_taps }
    ensures { result ≡ begun_state (sized S.WIDE format) kernel.now }
{
    State {
        width: format.width,
        height: format.height,
        depth: format.depth,
        taps: kernel.len(),
        kernel: held(kernel),
        rows: 0,
        scored: 0,
        sums: no_sums(),
    }
}
