// The chart of kernels for other languages. `count` is written where the answer is 0, and as it was otherwise.
ghost use Rattle.std.specs.Prelude.{◌≡◌};
ghost use Rattle.refusal.specs.First.{answer_number};
ghost use Rattle.kernel_chart.specs.Chart.{charted_of, taps_after};
ghost use Rattle.fuavelino.specs.Answer.{written};

use crate::put;

// The kernel for planes of this height that are no narrower than high, to the first places of `taps`: 0, or the lower of 8 14.
#[unsafe(no_mangle)]
pub extern "C" fn fuavelino_kernel(height: usize, taps: &mut [u16], count: &mut usize) -> u8
    ensures value { result ≡ answer_number (charted_of height taps.old) }
    ensures taps_after { taps.new ≡ taps_after height taps.old }
    ensures count_after { count.new ≡ written (λ x. x) (charted_of height taps.old) count.old }
{
    put(kernel_chart::kernel_for(height, taps), count)
}
