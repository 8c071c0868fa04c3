// Whole numbers of up to 128 bits, in two words. The library counts in `u128` now; this stays for the promise that one of its must-fail edits tests.
ghost use Rattle.std.specs.Prelude.{◌≡◌, ◌*◌, ◌^◌, ◌<◌, nat_lt};
ghost use Rattle.number.specs.Inner.Wide.{value_of};

// hi * 2^64 + lo.
#[derive(Clone, Copy, Debug, PartialEq, Eq)]
pub struct Wide {
    pub hi: u64,
    pub lo: u64,
}

// The whole product, by halves of 32 bits, column by column with the carries.
#[tactic(auto, using(crate::proofs::Words::halves_small))]
pub fn product(u: u64, v: u64) -> Wide
    ensures { value_of result ≡ u * v }
{
    let u0 = u % 0x1_0000_0000;
    let u1 = u / 0x1_0000_0000;
    let v0 = v % 0x1_0000_0000;
    let v1 = v / 0x1_0000_0000;
    let w0 = u0 * v0;
    let t = u1 * v0 + w0 / 0x1_0000_0000;
    let w1 = t % 0x1_0000_0000 + u0 * v1;
    Wide {
        hi: u1 * v1 + t / 0x1_0000_0000 + w1 / 0x1_0000_0000,
        lo: w1 % 0x1_0000_0000 * 0x1_0000_0000 + w0 % 0x1_0000_0000,
    }
}

// A number of two words times one word, where it has room in two.
pub fn times(w: Wide, m: u64) -> Wide
    requires { value_of w * m < 2 ^ 128 }
    ensures { value_of result ≡ value_of w * m }
{
    let low = product(w.lo, m);
    Wide {
        hi: w.hi * m + low.hi,
        lo: low.lo,
    }
}

pub fn less(a: Wide, b: Wide) -> bool
    ensures { result ≡ nat_lt (value_of a) (value_of b) }
{
    if a.hi == b.hi {
        a.lo < b.lo
    } else {
        a.hi < b.hi
    }
}
