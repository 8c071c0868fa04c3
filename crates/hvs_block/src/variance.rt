// How much a block varies, beside how much its four quarters do. The Rust's steps in doubles are exact up to the last product, so whole
// numbers give the same: of N samples with the sum s and the sum of squares q, (N × q - s²) / N.
ghost use Rattle.std.specs.Prelude.{◌≡◌, ◌-◌, ◌*◌, ◌≤◌, ◌^◌, nat_abs, length};
ghost use Rattle.number.specs.Steps.{◌⊗◌, ◌⊘◌, double};
ghost use Rattle.plane.specs.Sums.{sum_to};
ghost use Rattle.dct.specs.Limits.{block_size};
ghost use Rattle.hvs_block.specs.Literals.{fifteen, sixteen, sixty_three, sixty_four};
ghost use Rattle.hvs_block.specs.Block as Block;
ghost use Rattle.hvs_block.specs.Inner.Levels.{Sample, Samples, level_in, squares};

use dct::{BLOCK_SIDE, BLOCK_SIZE};

// The sum of some samples, and the sum of their squares.
#[derive(Clone, Copy)]
struct SampleSums {
    sum: u32,
    squares: u32,
}

// The same of a quarter, with its variance.
#[derive(Clone, Copy)]
struct QuarterSums {
    sum: u32,
    squares: u32,
    var: f64,
}

// A sample as a number without a sign.
fn level(v: i32) -> u32
    requires { Sample v }
    ensures { result ≡ nat_abs v }
{
    v as u32
}

// The sums of a quarter, by its first row and column.
fn quarter_sums(b: &[i32], top: usize, left: usize) -> SampleSums
    requires b_len { length b.now ≡ block_size }
    requires samples { Samples b.now }
    requires top_bound { (top ≤ 4) × (left ≤ 4) }
    ensures sum_value { result.sum ≡ sum_to (level_in b.now top left) 16 }
    ensures squares_value { result.squares ≡ squares (level_in b.now top left) 16 }
{
    let mut sum: u32 = 0;
    let mut squares: u32 = 0;
    // by index: the rows of a quarter lie a row of the block apart
    for k in 0..16 {
        let v = level(b[BLOCK_SIDE * (top + k / 4) + (left + k % 4)]);
        sum = sum + v;
        squares = squares + v * v;
    }
    SampleSums { sum, squares }
}

// The variance of a quarter, by its sums.
fn var(s: u32, q: u32) -> f64
    requires { (s * s ≤ 16 * q) × (q ≤ 2 ^ 30) }
    ensures { result ≡ double (16 * q - s * s) ⊘ sixteen ⊗ (sixteen ⊘ fifteen) }
{
    let s = s as u64;
    number::exact(16 * (q as u64) - s * s) / 16.0 * (16.0 / 15.0)
}

// The variance of a block, by its sums.
fn gvar(s: u32, q: u32) -> f64
    requires { (s * s ≤ block_size * q) × (q ≤ 2 ^ 30) }
    ensures { result ≡ double (block_size * q - s * s) ⊘ sixty_four ⊗ (sixty_four ⊘ sixty_three) }
{
    let s = s as u64;
    number::exact(BLOCK_SIZE as u64 * (q as u64) - s * s) / 64.0 * (64.0 / 63.0)
}

// A quarter.
fn quarter(b: &[i32], top: usize, left: usize) -> QuarterSums
    requires b_len { length b.now ≡ block_size }
    requires samples { Samples b.now }
    requires top_bound { (top ≤ 4) × (left ≤ 4) }
    ensures sum_value { result.sum ≡ sum_to (level_in b.now top left) 16 }
    ensures squares_value { result.squares ≡ squares (level_in b.now top left) 16 }
    ensures var_value { result.var ≡ Block.var b.now top left }
{
    let t = quarter_sums(b, top, left);
    QuarterSums {
        sum: t.sum,
        squares: t.squares,
        var: var(t.sum, t.squares),
    }
}

// The variances of the quarters in all, beside that of the block. The quarter below comes before the one to the right.
pub fn ratio(b: &[i32]) -> f64
    requires b_len { length b.now ≡ block_size }
    requires samples { Samples b.now }
    ensures { result ≡ Block.ratio b.now }
{
    let a = quarter(b, 0, 0);
    let c = quarter(b, 4, 0);
    let d = quarter(b, 0, 4);
    let e = quarter(b, 4, 4);
    let g = gvar(
        a.sum + c.sum + d.sum + e.sum,
        a.squares + c.squares + d.squares + e.squares,
    );
    let s = 0.0 + a.var + c.var + d.var + e.var;
    if 0.0 < g { s / g } else { g }
}
