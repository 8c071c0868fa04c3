// A pair of samples in one place of 64 signed bits. Any place means a pair of words, so that whatever a caller leaves in the ring is safe to
// score.
ghost use Rattle.std.specs.Prelude.{◌≡◌, ◌<◌, pos, length, set};
ghost use Rattle.window.specs.Inner.Columns.{at_z};
ghost use Rattle.row_ring.specs.Ring.{packed_of, plain_of, first_of, second_of};

// Words are below this.
const PAIR_BASE: u64 = 65536;

// A pair to place i.
pub fn put(i: usize, a: u32, b: u32, s: &mut [i64])
    requires { i < length s.old }
    ensures { s.new ≡ set s.old i (pos (packed_of a b)) }
{
    s[i] = (a as u64 + PAIR_BASE * (b as u64)) as i64;
}

// A place as a number: below 0 counts as 0.
fn plain(z: i64) -> u64
    ensures { result ≡ plain_of z }
{
    z.max(0) as u64
}

// The first of the pair at place i.
#[tactic(auto, unfolding(crate::specs::Ring::pair_base))]
pub fn first(s: &[i64], i: usize) -> u64
    requires { i < length s.now }
    ensures { result ≡ first_of (at_z s.now i) }
{
    plain(s[i]) % PAIR_BASE
}

// The second.
#[tactic(auto, unfolding(crate::specs::Ring::pair_base))]
pub fn second(s: &[i64], i: usize) -> u64
    requires { i < length s.now }
    ensures { result ≡ second_of (at_z s.now i) }
{
    plain(s[i]) / PAIR_BASE % PAIR_BASE
}
