// The first place, row by row, at which two planes differ.
ghost use Rattle.std.specs.Prelude.{◌≡◌, length, map};
ghost use Rattle.plane.specs.Inner.Seen.{planes};
ghost use Rattle.psnr.specs.Inner.Walk.{Walkable};
ghost use Rattle.locate.specs.Where.{first_difference};
ghost use Rattle.locate.specs.Inner.Walk.{alike_to};

use crate::Place;
use plane::{Pair, Sample, Stored};

// Whether two rows agree. They are walked to their end, whatever they hold: such a loop is vectorised.
#[tactic(auto, using(crate::proofs::Places::alike_steps, plane::proofs::All::at_value))]
fn alike<S: Sample>(a: &[S], b: &[S]) -> bool
    requires { length a.now ≡ length b.now }
    ensures { result ≡ alike_to (map S.value a.now) (map S.value b.now) (length a.now) }
{
    let mut ok = true;
    for (&p, &q) in a.iter().zip(b) {
        ok &= p.value() == q.value();
    }
    ok
}

// Both walks are left at the first place. A row that agrees is passed over as a whole. Not inlined: among the parameters of an exported
// call, what the walk counts by finds no register.
#[inline(never)]
#[tactic(auto, using(crate::proofs::Places::first_steps))]
pub fn first<S: Stored>(p: Pair<'_, S>) -> Option<Place>
    requires { Walkable (planes S.Sample.value S.WIDE p) }
    ensures { result ≡ first_difference (planes S.Sample.value S.WIDE p.entry) }
{
    let width = p.format.width;
    let mut place = None;
    // by index: a row begins at y times each plane's own stride
    'rows: for y in 0..p.format.height {
        let row_a = plane::row(p.a, width, y);
        let row_b = plane::row(p.b, width, y);
        if !alike(row_a, row_b) {
            for x in 0..width {
                if row_a[x].value() != row_b[x].value() {
                    place = Some(Place { row: y, column: x });
                    break 'rows;
                }
            }
        }
    }
    place
}
