// One block of 8 by 8 of each plane: the mask of both, and its error.
ghost use Rattle.std.specs.Prelude.{◌≡◌, ◌*ℤ◌, length};
ghost use Rattle.dct.specs.Limits.{block_size};
ghost use Rattle.dct.specs.Inner.Coefficients.{coefficient_limit};
ghost use Rattle.lifting.specs.Inner.Within.{Within, AllWithin};
ghost use Rattle.hvs_block.specs.Block as Block;
ghost use Rattle.hvs_block.specs.Inner.Levels.{Samples};

use crate::tables::Tables;
use crate::variance;
use dct::{BLOCK_SIDE, BLOCK_SIZE};

// The square of a coefficient. By what the transform promises of its size, 32 bits may not hold it.
fn square(v: i32) -> f64
    requires { Within coefficient_limit v }
    ensures { result ≡ Block.signed (v *ℤ v) }
{
    let w = v as i64;
    (w * w) as f64
}

// The squares of the coefficients of two blocks, weighed: one sum for each.
#[derive(Clone, Copy)]
struct EnergyPair {
    one: f64,
    other: f64,
}

fn energies(d1: &[i32], d2: &[i32], mask: &[[f64; BLOCK_SIDE]; BLOCK_SIDE]) -> EnergyPair
    requires d1_len { (length d1.now ≡ block_size) × (length d2.now ≡ block_size) }
    requires all_within { AllWithin coefficient_limit d1.now }
    requires all_within_2 { AllWithin coefficient_limit d2.now }
    ensures one_value { result.one ≡ Block.energy d1.now mask.now }
    ensures other_value { result.other ≡ Block.energy d2.now mask.now }
{
    let mut s = 0.0;
    let mut t = 0.0;
    // by index: two blocks and a table of rows are read at one place
    for k in 1..BLOCK_SIZE {
        let m = mask[k / BLOCK_SIDE][k % BLOCK_SIDE];
        s = s + square(d1[k]) * m;
        t = t + square(d2[k]) * m;
    }
    EnergyPair { one: s, other: t }
}

// The mask of a block, of its energy and the ratio of its variances.
fn mask_for(e: f64, r: f64) -> f64
    ensures { result ≡ Block.mask_for e r }
{
    number::root(e * r).unwrap_or(f64::NAN) / 32.0
}

// The larger of two masks.
#[tactic(auto, unfolding(crate::specs::Block::larger))]
fn larger(m1: f64, m2: f64) -> f64
    ensures { result ≡ Block.larger m1 m2 }
{
    if m1 < m2 { m2 } else { m1 }
}

// The mask of two blocks p1 and p2, of which d1 and d2 are the coefficients.
#[tactic(auto, unfolding(crate::specs::Block::mask_of_both))]
fn mask_of_both(
    p1: &[i32],
    p2: &[i32],
    d1: &[i32],
    d2: &[i32],
    mask: &[[f64; BLOCK_SIDE]; BLOCK_SIDE],
) -> f64
    requires p1_len { (length p1.now ≡ block_size) × (length p2.now ≡ block_size) }
    requires samples { Samples p1.now }
    requires samples_2 { Samples p2.now }
    requires d1_len { (length d1.now ≡ block_size) × (length d2.now ≡ block_size) }
    requires all_within { AllWithin coefficient_limit d1.now }
    requires all_within_2 { AllWithin coefficient_limit d2.now }
    ensures { result ≡ Block.mask_of_both p1.now p2.now d1.now d2.now mask.now }
{
    let e = energies(d1, d2, mask);
    let m1 = mask_for(e.one, variance::ratio(p1));
    let m2 = mask_for(e.other, variance::ratio(p2));
    larger(m1, m2)
}

// How far two coefficients are apart.
fn distance(a: i32, b: i32) -> f64
    requires within { Within coefficient_limit a }
    requires within_2 { Within coefficient_limit b }
    ensures { result ≡ Block.distance a b }
{
    a.abs_diff(b) as f64
}

// What the mask leaves of an error; nothing of the DC term's is masked.
#[tactic(auto, unfolding(crate::specs::Block::err_at))]
fn err_at(dc: bool, err: f64, mask: f64, m: f64) -> f64
    ensures { result ≡ Block.err_at dc err mask m }
{
    if dc {
        return err;
    }
    let err_mask = m / mask;
    if err < err_mask { 0.0 } else { err - err_mask }
}

// The squared error of one place.
#[tactic(auto, unfolding(crate::specs::Block::term))]
fn term(dc: bool, err: f64, csf: f64, mask: f64, m: f64) -> f64
    ensures { result ≡ Block.term dc err csf mask m }
{
    let q = err_at(dc, err, mask, m) * csf;
    q * q
}

// The squared errors of every place, added to `so_far`.
fn errors(d1: &[i32], d2: &[i32], tables: &Tables, m: f64, so_far: f64) -> f64
    requires d1_len { (length d1.now ≡ block_size) × (length d2.now ≡ block_size) }
    requires all_within { AllWithin coefficient_limit d1.now }
    requires all_within_2 { AllWithin coefficient_limit d2.now }
    ensures { result ≡ Block.errors d1.now d2.now tables.now.csf tables.now.mask m so_far }
{
    let mut s = so_far;
    // by index: two blocks and two tables of rows are read at one place
    for k in 0..BLOCK_SIZE {
        let err = distance(d1[k], d2[k]);
        s = s
            + term(
                k == 0,
                err,
                tables.csf[k / BLOCK_SIDE][k % BLOCK_SIDE],
                tables.mask[k / BLOCK_SIDE][k % BLOCK_SIDE],
                m,
            );
    }
    s
}

// One block of each plane, added to `so_far`.
pub fn with_block(p1: &[i32], p2: &[i32], tables: &Tables, so_far: f64) -> f64
    requires p1_len { (length p1.now ≡ block_size) × (length p2.now ≡ block_size) }
    requires samples { Samples p1.now }
    requires samples_2 { Samples p2.now }
    ensures { result ≡ Block.with_block p1.now p2.now tables.now.csf tables.now.mask so_far }
{
    let d1 = dct::fdct8x8(p1);
    let d2 = dct::fdct8x8(p2);
    let m = mask_of_both(p1, p2, &d1, &d2, &tables.mask);
    errors(&d1, &d2, tables, m, so_far)
}
