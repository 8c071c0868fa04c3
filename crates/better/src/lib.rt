// Which of two candidates is nearer an original, by squared error. SCOPE, "Which build is better".
#![tactic(auto)]

ghost use Rattle.std.specs.Prelude.{◌≡◌, map};
ghost use Rattle.plane.specs.Inner.Seen.{planes};
ghost use Rattle.better.specs.Better.{smaller_of, better_of, winner_of};
ghost use Rattle.better.specs.Inner.Judged.{judged_of, decided, contest_of};

use plane::{Format, Pair, Plane};
use psnr::walk::{self, Compared};
use refusal::Refusal;

// The smaller squared error, as a record has it, and whose it is; on a tie the first's.
#[derive(Clone, Copy, Debug, PartialEq)]
pub enum Better {
    First(f64),
    Second(f64),
}

// The squared error of two planes. 6 is judged on the walk.
fn judge<S: Compared>(p: Pair<'_, S>) -> Result<u64, Refusal>
    ensures { result ≡ judged_of (planes S.Sample.value S.WIDE p.entry) }
{
    plane::check_unread(p, 0)?;
    walk::rows(p)
}

// Of two errors the smaller.
fn smaller(first: u64, second: u64) -> Better
    ensures { result ≡ smaller_of first second }
{
    if second < first {
        Better::Second(number::double(second))
    } else {
        Better::First(number::double(first))
    }
}

// Of two findings the answer: where both refuse, the lower refusal; what is left where neither does are two errors.
fn decide(first: Result<u64, Refusal>, second: Result<u64, Refusal>) -> Result<Better, Refusal>
    ensures { result ≡ decided first second }
{
    refusal::lower(first.map(|_| ()), second.map(|_| ()))?;
    Ok(smaller(first?, second?))
}

// Which of two planes is nearer the original.
pub fn nearer<S: Compared>(
    format: Format,
    original: Plane<'_, S>,
    first: Plane<'_, S>,
    second: Plane<'_, S>,
) -> Result<Better, Refusal>
    ensures { result ≡ better_of (contest_of S.Sample.value S.WIDE format original.entry first.entry second.entry) }
{
    let beside_first = Pair {
        format,
        a: original,
        b: first,
    };
    let beside_second = Pair {
        format,
        a: original,
        b: second,
    };
    decide(judge(beside_first), judge(beside_second))
}

// The samples of the better plane, all that were lent, padding too; an empty part where `nearer` refuses.
pub fn winner<'c, S: Compared>(
    format: Format,
    original: Plane<'_, S>,
    first: Plane<'c, S>,
    second: Plane<'c, S>,
) -> &'c [S]
    ensures { map S.Sample.value result.now
        ≡ winner_of (contest_of S.Sample.value S.WIDE format original.entry first.entry second.entry) }
{
    match nearer(format, original, first, second) {
        Ok(Better::First(_)) => first.samples,
        Ok(Better::Second(_)) => second.samples,
        Err(_) => &first.samples[0..0],
    }
}
