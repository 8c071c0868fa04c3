// Why a call refuses: the table of SCOPE, "When the desk says no". Each refusal has its number there, by which other languages are told.
#![tactic(auto)]

ghost use Rattle.std.specs.Prelude.{◌≡◌};
ghost use Rattle.refusal.specs.Numbers.{number_of};
ghost use Rattle.refusal.specs.First.{lower_of};

use std::error::Error;
use std::fmt;

// What applied to a call. Of those that apply the one with the lowest number is told.
#[derive(Clone, Copy, Debug, PartialEq, Eq, Hash)]
pub enum Refusal {
    // The depth does not suit the sample width.
    Depth = 1,
    // A side is 0 or above its limit.
    Size = 2,
    // A side is below what the score needs.
    Side = 3,
    // A stride is below the width or above its limit.
    Stride = 4,
    // A plane is too short.
    Short = 5,
    // A visible sample is above sample_max.
    Sample = 6,
    // The lent kernel is unlawful.
    Kernel = 7,
    // Lent scratch, or room lent for a map or a kernel, is too short.
    Scratch = 8,
    // The defined score is infinite or not a number.
    NotFinite = 9,
    // None or too many records, or a bad record.
    Record = 10,
    // The exact total is above 2^53.
    Total = 11,
    // A transform or a root is asked of what is outside its range.
    Value = 12,
    // A weight is outside 0 to 1, or a number to combine is not finite.
    Weight = 13,
    // The chart has no kernel for this height.
    Height = 14,
    // A row-fed state that no begin and feeds could give, rows past the height, or a finish before the last row.
    State = 15,
}

impl Refusal {
    // Its number, as other languages are told.
    pub fn number(self) -> u8
        ensures { result ≡ number_of self }
    {
        self as u8
    }
}

impl fmt::Display for Refusal {
    fn fmt<W: fmt::Write>(&self, f: &mut fmt::Formatter<W>) -> fmt::Result {
        f.write_str(match self {
            Refusal::Depth => "the depth does not suit the sample width",
            Refusal::Size => "a side is 0 or above its limit",
            Refusal::Side => "a side is below what the score needs",
            Refusal::Stride => "a stride is below the width or above its limit",
            Refusal::Short => "a plane is too short",
            Refusal::Sample => "a visible sample is above the largest of its depth",
            Refusal::Kernel => "the kernel is unlawful",
            Refusal::Scratch => "what is lent to work in is too short",
            Refusal::NotFinite => "the score is infinite or not a number",
            Refusal::Record => "no record, too many, or a bad one",
            Refusal::Total => "the total is above 2^53",
            Refusal::Value => "a value is outside its range",
            Refusal::Weight => "the weight is outside 0 to 1, or a score is not finite",
            Refusal::Height => "the chart has no kernel for this height",
            Refusal::State => "the rows so far are impossible, too many or too few",
        })
    }
}

impl Error for Refusal {}

// Of two answers the one that is told: a refusal before none, and of two the lower.
pub fn lower(a: Result<(), Refusal>, b: Result<(), Refusal>) -> Result<(), Refusal>
    ensures { result ≡ lower_of a b }
{
    match (a, b) {
        (Err(x), Err(y)) => Err(if x.number() <= y.number() { x } else { y }),
        (Err(x), Ok(())) => Err(x),
        (Ok(()), _) => b,
    }
}
