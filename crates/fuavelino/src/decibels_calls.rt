// PSNR in whole hundredths of a decibel. The places lent are written where the answer is 0, and as they were otherwise.
ghost use Rattle.std.specs.Prelude.{◌≡◌};
ghost use Rattle.decibels.specs.Answer.{total_decibels, series_decibels};
ghost use Rattle.fuavelino.specs.Decibels.{decibels_number, hundredths_written, identical_written};

use decibels::Decibels;
use psnr::{Record, Total};
use refusal::Refusal;

// Writes the hundredths, and whether they stand for "identical", where there are any.
#[tactic(auto, unfolding(decibels::specs::Said::identical_hundredths, psnr::specs::Said::identical_decibels))]
fn put_decibels(answer: Result<Decibels, Refusal>, hundredths: &mut u32, identical: &mut u8) -> u8
    ensures { (result ≡ decibels_number answer)
        × (hundredths.new ≡ hundredths_written answer hundredths.old)
        × (identical.new ≡ identical_written answer identical.old) }
{
    match answer {
        Ok(Decibels::Hundredths(d)) => {
            *hundredths = d;
            *identical = 0;
            0
        }
        Ok(Decibels::Identical) => {
            *hundredths = decibels::IDENTICAL;
            *identical = 1;
            0
        }
        Err(no) => no.number(),
    }
}

// Of a lent run of records; a record is a run of one. 0, or the lower of 10 and 11.
#[unsafe(no_mangle)]
pub extern "C" fn fuavelino_decibels(
    records: &[Record],
    hundredths: &mut u32,
    identical: &mut u8,
) -> u8
    ensures { (result ≡ decibels_number (series_decibels records.now))
        × (hundredths.new ≡ hundredths_written (series_decibels records.now) hundredths.old)
        × (identical.new ≡ identical_written (series_decibels records.now) identical.old) }
{
    let answer = decibels::of_series(records);
    put_decibels(answer, hundredths, identical)
}

// Of a total, as `fuavelino_series` writes it or as it is added up from several. 0, or 10.
#[unsafe(no_mangle)]
pub extern "C" fn fuavelino_total_decibels(
    sq_err: f64,
    n: u64,
    sample_max: u32,
    hundredths: &mut u32,
    identical: &mut u8,
) -> u8
    ensures { (result ≡ decibels_number (total_decibels (record { sq_err = sq_err; n = n; sample_max = sample_max })))
        × (hundredths.new ≡ hundredths_written
        (total_decibels (record { sq_err = sq_err; n = n; sample_max = sample_max })) hundredths.old)
        × (identical.new ≡ identical_written
        (total_decibels (record { sq_err = sq_err; n = n; sample_max = sample_max })) identical.old) }
{
    let answer = decibels::of_total(Total {
        sq_err,
        n,
        sample_max,
    });
    put_decibels(answer, hundredths, identical)
}
