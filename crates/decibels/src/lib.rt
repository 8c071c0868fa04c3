// PSNR in whole hundredths of a decibel, of a record, of a total and of a run of records. SCOPE, "Decibels".
#![tactic(auto)]

ghost use Rattle.std.specs.Prelude.{◌≡◌, ◌*◌, ◌^◌, ◌≤◌, ◌<◌};
ghost use Rattle.decibels.specs.Hundredths.{place_count, entry_of, peak_of, power_of, place_of};
ghost use Rattle.decibels.specs.Answer.{decibels_of, record_decibels, total_suits, total_decibels, summed_decibels, series_decibels};
ghost use Rattle.decibels.specs.Inner.Chart.{chart};
ghost use Rattle.decibels.specs.Inner.Room.{power_limit, peak_limit};

use psnr::{Record, Summed, Total};
use refusal::Refusal;

mod chart;

// The places of the chart.
const PLACES: u32 = 1000;

// What its entries count: 10^9.
const UNIT: u128 = 1_000_000_000;

// The hundredths of the 100 decibels that stand for "identical".
pub const IDENTICAL: u32 = 10_000;

// What is answered: D, or that no sample differs, for which 100 decibels stand.
#[derive(Clone, Copy, Debug, PartialEq, Eq)]
pub enum Decibels {
    Hundredths(u32),
    Identical,
}

// An error times a power of ten, and which power.
#[derive(Clone, Copy, Debug, PartialEq, Eq)]
struct Raised {
    error: u128,
    power: u32,
}

// The error times the largest power of ten with which it is still at most P. A `while`, since what is sought is how often it runs.
fn raise(peak: u128, error: u64) -> Raised
    requires { (1 ≤ error) × (error ≤ peak) × (peak < peak_limit) }
    ensures power_value { (result.power ≡ power_of peak error) × (result.error ≡ 10 ^ result.power * error) }
    ensures power_lt_power_limit { (result.power < power_limit) × (error ≤ result.error) × (result.error ≤ peak) }
{
    let mut power: u32 = 0;
    let mut held = u128::from(error);
    while held * 10 <= peak {
        power += 1;
        held *= 10;
    }
    Raised { error: held, power }
}

// The last place of the chart whose entry times the error is at most P units. The chart is lent, since a constant is laid out anew
// wherever it is named: once a call, and not once a step.
fn place(entries: &[u64; 1000], peak: u128, error: u128) -> usize
    requires entries_value { entries.now ≡ chart }
    requires error_bound { (1 ≤ error) × (error ≤ peak) × (peak < peak_limit) }
    ensures { (result ≡ place_of peak error) × (result < place_count) }
{
    let most = peak * UNIT;
    // products, which wrap for no entry of the chart: for a quotient an archive would ask for `__udivti3` from outside
    entries.partition_point(|e| u128::from(*e).wrapping_mul(error) <= most) - 1
}

// P: n samples, each as wrong as it can be.
#[tactic(auto, unfolding(crate::specs::Hundredths::peak_of))]
fn peak_of(n: u64, max: u32) -> u128
    ensures { result ≡ peak_of n max }
{
    u128::from(n) * (u128::from(max) * u128::from(max))
}

// The answer for an error under P.
#[tactic(auto, unfolding(crate::specs::Hundredths::hundredths_of, crate::specs::Hundredths::place_count, crate::specs::Inner::Room::power_limit))]
fn answer(peak: u128, error: u64) -> Decibels
    requires { (error ≤ peak) × (peak < peak_limit) }
    ensures { result ≡ decibels_of peak error }
{
    if error == 0 {
        return Decibels::Identical;
    }
    let s = raise(peak, error);
    let k = place(&chart::ENTRIES, peak, s.error);
    Decibels::Hundredths(PLACES * s.power + k as u32)
}

// Of a record.
#[tactic(auto, using(crate::proofs::Suits::record_suits_lem), unfolding(crate::specs::Answer::record_decibels))]
pub fn of_record(r: Record) -> Result<Decibels, Refusal>
    ensures { result ≡ record_decibels r }
{
    if !psnr::judge::record_suits(r) {
        return Err(Refusal::Record);
    }
    Ok(answer(peak_of(r.n, r.sample_max), r.sq_err as u64))
}

// Whether some series adds up to this total. Its largest error can need more than a word.
#[tactic(auto, unfolding(crate::specs::Answer::total_suits, psnr::specs::Record::error_suits, psnr::specs::Limits::record_limit, psnr::specs::Limits::count_limit))]
fn total_suits(t: Total) -> bool
    ensures { result ≡ total_suits t }
{
    (1..=psnr::RECORD_LIMIT * psnr::judge::COUNT_LIMIT).contains(&t.n)
        && psnr::judge::max_suits(t.sample_max)
        && psnr::judge::is_whole(t.sq_err)
        && u128::from(t.sq_err as u64) <= peak_of(t.n, t.sample_max)
}

// Of a total.
#[tactic(auto, using(crate::proofs::Suits::total_suits_lem), unfolding(crate::specs::Answer::total_decibels))]
pub fn of_total(t: Total) -> Result<Decibels, Refusal>
    ensures { result ≡ total_decibels t }
{
    if !total_suits(t) {
        return Err(Refusal::Record);
    }
    Ok(answer(peak_of(t.n, t.sample_max), t.sq_err as u64))
}

// Of what a series answered; its refusal is passed on.
#[tactic(auto, unfolding(crate::specs::Answer::summed_decibels))]
pub fn of_summed(answer: Result<Summed, Refusal>) -> Result<Decibels, Refusal>
    ensures { result ≡ summed_decibels answer }
{
    match answer? {
        Summed::Differs(t) => match of_total(t)? {
            Decibels::Hundredths(d) => Ok(Decibels::Hundredths(d)),
            Decibels::Identical => Err(Refusal::Record),
        },
        Summed::Identical(t) => match of_total(t)? {
            Decibels::Hundredths(_) => Err(Refusal::Record),
            Decibels::Identical => Ok(Decibels::Identical),
        },
    }
}

// Of a lent run of records.
#[tactic(auto, using(crate::proofs::Series::series_summed))]
pub fn of_series(records: &[Record]) -> Result<Decibels, Refusal>
    ensures { result ≡ series_decibels records.now }
{
    of_summed(psnr::series(records))
}
