// One scale scored.
ghost use Rattle.std.specs.Prelude.{◌≡◌, ◌*◌, ◌≤◌, length};
ghost use Rattle.plane.specs.Limits.{side_limit};
ghost use Rattle.plane.specs.Plane.{plane_of, sample_at};
ghost use Rattle.plane.specs.Inner.Lawful.{Bounded};
ghost use Rattle.kernel.specs.Kernel.{fixed_kernel};
ghost use Rattle.window.specs.Moments.{most_sample};
ghost use Rattle.window.specs.Inner.Columns.{columns_of};
ghost use Rattle.msssim.specs.Scale.{scale_of, scale_totals, mean_pair};

use plane::{Format, Pair, Plane};
use ssim::{Ssim, Totals};

// What the taps of the fixed kernel sum to.
const FIXED_TOTAL: u64 = 1024;
// The columns of zeros on both sides of a row: half of the nine taps, twice.
const MARGINS: usize = 8;

// The sums over every centre of a scale, under the fixed kernel. It takes as many places as it has columns, and leaves them zero.
pub fn totals(
    a32: &[u32],
    b32: &[u32],
    width: usize,
    height: usize,
    max: u32,
    cols: &mut [i64],
) -> Totals
    requires width_le_side_limit { (width ≤ side_limit) × (height ≤ side_limit) × (max ≤ most_sample)
        × (5 * columns_of fixed_kernel width ≤ length cols.old) }
    requires bounded { Bounded max width height (plane_of a32.now width) }
    requires bounded_2 { Bounded max width height (plane_of b32.now width) }
    ensures { result ≡ scale_totals (scale_of max width height (sample_at (plane_of a32.now width))
        (sample_at (plane_of b32.now width))) }
{
    let kernel = [8u16, 37, 112, 218, 274, 218, 112, 37, 8];
    let need = 5 * (width + MARGINS);
    let max2 = ssim::centre::squared(max);
    // the samples of a scale go up to `max`: no depth is read
    let format = Format {
        width,
        height,
        depth: 0,
    };
    let p = Pair {
        format,
        a: Plane {
            samples: a32,
            stride: width,
        },
        b: Plane {
            samples: b32,
            stride: width,
        },
    };
    ssim::walk::totals(p, &kernel, FIXED_TOTAL, max2, &mut cols[..need])
}

// The pair of a scale.
pub fn pair(t: Totals) -> Ssim
    ensures { result ≡ mean_pair t }
{
    Ssim {
        ssim: t.ssim / t.ssimw,
        cs: t.cs / t.ssimw,
    }
}
