// The transform of a block of 8 by 8 numbers, and its inverse: SCOPE, "The transform".
#![tactic(auto)]

mod block;

ghost use Rattle.std.specs.Prelude.{◌≡◌, T, leb, nat_abs, length, Ok};
ghost use Rattle.std.specs.Int.Signed.{non_neg};
ghost use Rattle.dct.specs.Limits.{block_size, forward_limit, inverse_limit};
ghost use Rattle.lifting.specs.Inner.Within.{AllWithin};
ghost use Rattle.dct.specs.Block as Block;
ghost use Rattle.dct.specs.Call.{all_within, block_suits, transform_refusal, out_after};

use crate::block::{fdct8_columns, idct8_rows};
use refusal::Refusal;

// The side of a block, its places, and the largest sizes that the two calls take. specs/Limits.antt has the same for definitions.
pub const BLOCK_SIDE: usize = 8;

pub const BLOCK_SIZE: usize = 64;

pub const FORWARD_LIMIT: i32 = 8191;

pub const INVERSE_LIMIT: i32 = 2097151;

fn within(v: i32, limit: i32) -> bool
    requires { T (non_neg limit) }
    ensures { result ≡ leb (nat_abs v) (nat_abs limit) }
{
    -limit <= v && v <= limit
}

fn all_within(x: &[i32], limit: i32) -> bool
    requires { T (non_neg limit) }
    ensures { result ≡ all_within (nat_abs limit) x.now }
{
    for v in x {
        if !within(*v, limit) {
            return false;
        }
    }
    true
}

#[tactic(auto, unfolding(crate::specs::Call::block_suits))]
fn block_suits(given: &[i32], places: usize, limit: i32) -> bool
    requires { T (non_neg limit) }
    ensures { result ≡ block_suits (nat_abs limit) given.now places }
{
    given.len() == BLOCK_SIZE && places == BLOCK_SIZE && all_within(given, limit)
}

// The transform, for a caller who knows that the block is in range.
#[tactic(auto, using(crate::proofs::Bound::two_rounds, crate::proofs::Round::length_fdct8_columns), unfolding(crate::specs::Block::fdct8x8))]
pub fn fdct8x8(block: &[i32]) -> [i32; BLOCK_SIZE]
    requires block_len { length block.now ≡ block_size }
    requires all_within { AllWithin forward_limit block.now }
    ensures { result ≡ Block.fdct8x8 block.now }
{
    let z = fdct8_columns(block);
    fdct8_columns(&z)
}

#[tactic(auto, using(crate::proofs::Bound::two_rounds), unfolding(crate::specs::Block::idct8x8))]
fn idct8x8(coefs: &[i32], out: &mut [i32])
    requires coefs_len { length coefs.now ≡ block_size }
    requires out_len { length out.old ≡ block_size }
    requires all_within { AllWithin inverse_limit coefs.now }
    ensures { out.new ≡ Block.idct8x8 coefs.now }
{
    let mut z = [0i32; BLOCK_SIZE];
    idct8_rows(coefs, &mut z);
    idct8_rows(&z, out);
}

// The transform of a block into `out`, or 12 and nothing altered.
#[tactic(auto, using(crate::proofs::Calls::call_steps))]
pub fn forward(block: &[i32], out: &mut [i32]) -> Result<(), Refusal>
    ensures answer { result ≡ transform_refusal forward_limit block.now out.old }
    ensures content { out.new ≡ out_after forward_limit Block.fdct8x8 block.now out.old }
{
    if !block_suits(block, out.len(), FORWARD_LIMIT) {
        return Err(Refusal::Value);
    }
    out.copy_from_slice(&fdct8x8(block));
    Ok(())
}

// The one block that the transform carries to the coefficients, into `out`, or 12 and nothing altered.
#[tactic(auto, using(crate::proofs::Calls::call_steps))]
pub fn inverse(coefs: &[i32], out: &mut [i32]) -> Result<(), Refusal>
    ensures answer { result ≡ transform_refusal inverse_limit coefs.now out.old }
    ensures content { out.new ≡ out_after inverse_limit Block.idct8x8 coefs.now out.old }
    ensures carried { result ≡ Ok tt → Block.fdct8x8 out.new ≡ coefs.now }
{
    if !block_suits(coefs, out.len(), INVERSE_LIMIT) {
        return Err(Refusal::Value);
    }
    idct8x8(coefs, out);
    Ok(())
}
