// The six sums at one centre (x, y): over every row i and every column j of the kernel, what stands in row y + i - off and column
// x + j - off of the planes, where that is inside them, weighed by tap i times tap j.
ghost use Rattle.std.specs.Prelude.{◌≡◌, true, ◌+◌, ◌*◌, ◌<◌, ◌^◌, length};
ghost use Rattle.plane.specs.Plane.{sample_at};
ghost use Rattle.plane.specs.Inner.Seen.{seen, planes};
ghost use Rattle.plane.specs.Inner.Lawful.{AcceptedPair};
ghost use Rattle.kernel.specs.Kernel.{lent_total, lawful};
ghost use Rattle.window.specs.Moments.{moments_at};
ghost use Rattle.plain.specs.Inner.Parts.{place_of, row_to, inside_of, six_of, weighed_of, plus_of, no_moments, Fits};

use plane::{Pair, Plane, Sample, Stored};
use window::Moments;

// The sample in row r and column c of a plane.
#[tactic(auto, using(plane::proofs::All::at_value))]
fn sample<S: Sample>(p: Plane<'_, S>, r: usize, c: usize) -> u64
    requires { r * p.stride + c < length p.samples.now }
    ensures { result ≡ sample_at (seen S.value p.entry) r c }
{
    u64::from(p.samples[r * p.stride + c].value())
}

// Whether a kernel place lies inside a side: `at` is the place of the centre and that of the tap together.
fn inside(at: usize, off: usize, side: usize) -> bool
    requires { off + side < 2 ^ 64 }
    ensures { result ≡ inside_of off side at }
{
    (off <= at) & (at < off + side)
}

// What two samples add to the six sums, weighed by the tap down times the tap across.
fn weighed(down: u16, across: u16, a: u64, b: u64) -> Moments
    requires { Fits (weighed_of (down * across) a b) }
    ensures { result ≡ weighed_of (down * across) a b }
{
    let down = u64::from(down);
    let k = down * u64::from(across);
    Moments {
        mux: k * a,
        muy: k * b,
        x2: k * a * a,
        xy: k * a * b,
        y2: k * b * b,
        w: k,
    }
}

// No sum yet.
fn none() -> Moments
    ensures { result ≡ no_moments }
{
    Moments {
        mux: 0,
        muy: 0,
        x2: 0,
        xy: 0,
        y2: 0,
        w: 0,
    }
}

// Six sums and six more, one by one.
fn plus(s: Moments, t: Moments) -> Moments
    requires { Fits (plus_of s t) }
    ensures { result ≡ plus_of s t }
{
    Moments {
        mux: s.mux + t.mux,
        muy: s.muy + t.muy,
        x2: s.x2 + t.x2,
        xy: s.xy + t.xy,
        y2: s.y2 + t.y2,
        w: s.w + t.w,
    }
}

// The kernel place (i, j): nothing where it lies outside the planes.
#[tactic(auto, using(crate::proofs::Parts::place_steps))]
fn place<S: Stored>(
    p: Pair<'_, S>,
    kernel: &[u16],
    x: usize,
    y: usize,
    i: usize,
    j: usize,
) -> Moments
    requires x_lt_width { (x < p.format.width) × (y < p.format.height) × (i < length kernel.now) × (j < length kernel.now) }
    requires accepted_pair { AcceptedPair (planes S.Sample.value S.WIDE p) 0 }
    requires kernel_value { lawful lent_total kernel.now ≡ true }
    ensures { result ≡ six_of (place_of kernel.now p.entry.format.width p.entry.format.height x y i j)
        (sample_at (seen S.Sample.value p.entry.a)) (sample_at (seen S.Sample.value p.entry.b)) }
{
    let off = kernel.len() / 2;
    let row = y + i;
    let column = x + j;
    if !(inside(row, off, p.format.height) & inside(column, off, p.format.width)) {
        return none();
    }
    let r = row - off;
    let c = column - off;
    weighed(kernel[i], kernel[j], sample(p.a, r, c), sample(p.b, r, c))
}

// Row i of the kernel.
#[tactic(auto, using(crate::proofs::Parts::row_none, crate::proofs::Parts::row_more))]
fn kernel_row<S: Stored>(p: Pair<'_, S>, kernel: &[u16], x: usize, y: usize, i: usize) -> Moments
    requires x_lt_width { (x < p.format.width) × (y < p.format.height) × (i < length kernel.now) }
    requires accepted_pair { AcceptedPair (planes S.Sample.value S.WIDE p) 0 }
    requires kernel_value { lawful lent_total kernel.now ≡ true }
    ensures { result ≡ six_of (row_to kernel.now p.entry.format.width p.entry.format.height x y i (length kernel.now))
        (sample_at (seen S.Sample.value p.entry.a)) (sample_at (seen S.Sample.value p.entry.b)) }
{
    let mut sum = none();
    // by index: `place` reads the tap and the samples under it by the numbers of both
    for j in 0..kernel.len() {
        sum = plus(sum, place(p, kernel, x, y, i, j));
    }
    sum
}

// The whole window: every row of the kernel.
#[tactic(auto, using(crate::proofs::Parts::rows_none, crate::proofs::Parts::rows_more))]
pub fn moments_at<S: Stored>(p: Pair<'_, S>, kernel: &[u16], x: usize, y: usize) -> Moments
    requires x_lt_width { (x < p.format.width) × (y < p.format.height) }
    requires accepted_pair { AcceptedPair (planes S.Sample.value S.WIDE p) 0 }
    requires kernel_value { lawful lent_total kernel.now ≡ true }
    ensures { result ≡ moments_at kernel.now p.entry.format.width p.entry.format.height
        (sample_at (seen S.Sample.value p.entry.a)) (sample_at (seen S.Sample.value p.entry.b)) x y }
{
    let mut sum = none();
    // by index: as in `kernel_row`
    for i in 0..kernel.len() {
        sum = plus(sum, kernel_row(p, kernel, x, y, i));
    }
    sum
}
