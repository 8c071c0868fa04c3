// Rows and columns of a block, and a pass over each of the eight.
ghost use Rattle.std.specs.Prelude.{◌≡◌, ◌++◌, ◌+◌, ◌*◌, ◌<◌, ◌≤◌, length, drop};
ghost use Rattle.dct.specs.Limits.{block_side, block_size};
ghost use Rattle.dct.specs.Block as Block;
ghost use Rattle.lifting.specs.Inner.Operation.{run_limit, undo_limit, vals};
ghost use Rattle.lifting.specs.Inner.Within.{AllWithin};

use crate::{BLOCK_SIDE, BLOCK_SIZE};
use lifting::T8;

// Eight numbers to the front of a part.
pub fn store(r: T8, out: &mut [i32])
    requires { 8 ≤ length out.old }
    ensures { out.new ≡ vals r ++ drop 8 out.old }
{
    out[..8].copy_from_slice(&[r.t0, r.t1, r.t2, r.t3, r.t4, r.t5, r.t6, r.t7]);
}

// Eight numbers of a block, each `by` places after the one before: a column by 8, a row by 1.
pub fn gather(x: &[i32], at: usize, by: usize) -> T8
    requires { at + 7 * by < length x.now }
    ensures { vals result ≡ Block.spaced at by x.now }
{
    T8 {
        t0: x[at],
        t1: x[at + by],
        t2: x[at + 2 * by],
        t3: x[at + 3 * by],
        t4: x[at + 4 * by],
        t5: x[at + 5 * by],
        t6: x[at + 6 * by],
        t7: x[at + 7 * by],
    }
}

// Column i of x goes through the pass to the front of out.
pub fn fdct8(x: &[i32], i: usize, out: &mut [i32])
    requires i_lt_block_side { i < block_side }
    requires x_len { length x.now ≡ block_size }
    requires in_bounds { 8 ≤ length out.old }
    requires all_within { AllWithin run_limit (Block.column i x.now) }
    ensures { out.new ≡ Block.fdct8 (Block.column i x.now) ++ drop 8 out.old }
{
    let c = gather(x, i, BLOCK_SIDE);
    let r = lifting::run_steps(c.t0, c.t7, c.t2, c.t5, c.t1, c.t6, c.t3, c.t4);
    store(r, out);
}

// Column i goes to row i, for each of the eight.
#[tactic(auto, using(crate::proofs::Blocks::row_steps))]
pub fn fdct8_columns_into(x: &[i32], out: &mut [i32])
    requires x_len { length x.now ≡ block_size }
    requires out_len { length out.old ≡ block_size }
    requires all_within { AllWithin run_limit x.now }
    ensures { out.new ≡ Block.fdct8_columns x.now }
{
    // by index: column i of one block and row i of the other are taken together
    for i in 0..BLOCK_SIDE {
        let at = BLOCK_SIDE * i;
        fdct8(x, i, &mut out[at..]);
    }
}

// The same into a block of its own. Nothing else can reach that block, so the eight passes can go side by side.
pub fn fdct8_columns(x: &[i32]) -> [i32; BLOCK_SIZE]
    requires x_len { length x.now ≡ block_size }
    requires all_within { AllWithin run_limit x.now }
    ensures { result ≡ Block.fdct8_columns x.now }
{
    let mut y = [0i32; BLOCK_SIZE];
    fdct8_columns_into(x, &mut y);
    y
}

// Row i of x goes through the inverse pass to the front of out.
pub fn idct8(x: &[i32], i: usize, out: &mut [i32])
    requires i_lt_block_side { i < block_side }
    requires x_len { length x.now ≡ block_size }
    requires in_bounds { 8 ≤ length out.old }
    requires all_within { AllWithin undo_limit (Block.row i x.now) }
    ensures { out.new ≡ Block.idct8 (Block.row i x.now) ++ drop 8 out.old }
{
    let at = BLOCK_SIDE * i;
    let a = gather(x, at, 1);
    let r = lifting::undo_steps(a.t0, a.t1, a.t2, a.t3, a.t4, a.t5, a.t6, a.t7);
    let s = T8 {
        t0: r.t0,
        t1: r.t4,
        t2: r.t2,
        t3: r.t6,
        t4: r.t7,
        t5: r.t3,
        t6: r.t5,
        t7: r.t1,
    };
    store(s, out);
}

// Each row through the inverse pass.
#[tactic(auto, using(crate::proofs::Blocks::row_steps, crate::proofs::Round::length_idct8))]
pub fn idct8_each_row(x: &[i32], out: &mut [i32])
    requires x_len { length x.now ≡ block_size }
    requires out_len { length out.old ≡ block_size }
    requires all_within { AllWithin undo_limit x.now }
    ensures { out.new ≡ Block.rows (λ i. Block.idct8 (Block.row i x.now)) block_side }
{
    // by index: row i of both blocks is taken together
    for i in 0..BLOCK_SIDE {
        let at = BLOCK_SIDE * i;
        idct8(x, i, &mut out[at..]);
    }
}

// Column i of x to the front of out.
pub fn transpose_row(x: &[i32], i: usize, out: &mut [i32])
    requires i_lt_block_side { i < block_side }
    requires x_len { length x.now ≡ block_size }
    requires in_bounds { 8 ≤ length out.old }
    ensures { out.new ≡ Block.column i x.now ++ drop 8 out.old }
{
    let c = gather(x, i, BLOCK_SIDE);
    store(c, out);
}

#[tactic(auto, using(crate::proofs::Blocks::row_steps))]
pub fn transpose(x: &[i32], out: &mut [i32])
    requires x_len { length x.now ≡ block_size }
    requires out_len { length out.old ≡ block_size }
    ensures { out.new ≡ Block.transposed x.now }
{
    // by index: column i of one block and row i of the other are taken together
    for i in 0..BLOCK_SIDE {
        let at = BLOCK_SIDE * i;
        transpose_row(x, i, &mut out[at..]);
    }
}

// Row i goes back to column i, for each of the eight.
#[tactic(auto, unfolding(crate::specs::Block::idct8_rows))]
pub fn idct8_rows(x: &[i32], out: &mut [i32])
    requires x_len { length x.now ≡ block_size }
    requires out_len { length out.old ≡ block_size }
    requires all_within { AllWithin undo_limit x.now }
    ensures { out.new ≡ Block.idct8_rows x.now }
{
    let mut z = [0i32; BLOCK_SIZE];
    idct8_each_row(x, &mut z);
    transpose(&z, out);
}
