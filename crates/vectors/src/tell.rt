// What the replays share: the line that each prints, parts of what is lent, and numbers compared.
use crate::table;
use refusal::Refusal;
use std::io;
use std::ops::Range;

// How many of `rows` give their answer.
pub fn replay<T, F: Fn(&T) -> bool>(
    rt: &impl Print,
    name: &str,
    rows: &[T],
    is_right: F,
) -> io::Result<()>
    requires { F.IsAlwaysCallable is_right }
{
    let right = rows.iter().filter(|&row| is_right(row)).count();
    let all = rows.len();
    println!(rt; "{name}: {right} of {all}")
}

// How many of `list` hold.
pub fn held(rt: &impl Print, name: &str, list: &[bool]) -> io::Result<()> {
    replay(rt, name, list, |&holds| holds)
}

// A part of what is lent, and nothing where it is not there.
pub fn part_of<T>(list: &[T], places: Range<usize>) -> &[T] {
    list.get(places).unwrap_or(&[])
}

// The number that the tables have for an answer: its refusal's, or 0.
pub fn number_of<T: Drop>(answer: Result<T, Refusal>) -> u8 {
    answer.err().map_or(0, Refusal::number)
}

// Whether two numbers are one, zeros of unlike sign told apart.
pub fn same(x: f64, y: f64) -> bool {
    x == y && 1.0 / x == 1.0 / y
}

// Whether these are the numbers that stand in the table of scores from a place on.
pub fn stand(scores: &[f64], at: usize) -> bool {
    let list = table::SCORES;
    let Some(rest) = list.get(at..) else {
        return false;
    };
    scores.len() <= rest.len() && scores.iter().zip(rest).all(|(x, y)| same(*x, *y))
}
