// The transform of a block of 8 by 8 numbers, and its inverse.
ghost use Rattle.std.specs.Prelude.{◌≡◌};
ghost use Rattle.refusal.specs.First.{answer_number};
ghost use Rattle.dct.specs.Limits.{forward_limit, inverse_limit};
ghost use Rattle.dct.specs.Block.{fdct8x8, idct8x8};
ghost use Rattle.dct.specs.Call.{transform_refusal, out_after};

use crate::number_of;

// The transform of 64 numbers from -8,191 to 8,191 into 64 places; 12 where it is asked for anything else, and `out` is as it was.
#[unsafe(no_mangle)]
pub extern "C" fn fuavelino_forward(block: &[i32], out: &mut [i32]) -> u8
    ensures value { result ≡ answer_number (transform_refusal forward_limit block.now out.old) }
    ensures out_after { out.new ≡ out_after forward_limit fdct8x8 block.now out.old }
{
    number_of(dct::forward(block, out))
}

// The one block whose transform is these 64 coefficients, each from -2,097,151 to 2,097,151; 12 as above.
#[tactic(auto, using(crate::proofs::Told::none_refused))]
#[unsafe(no_mangle)]
pub extern "C" fn fuavelino_inverse(coefs: &[i32], out: &mut [i32]) -> u8
    ensures value { result ≡ answer_number (transform_refusal inverse_limit coefs.now out.old) }
    ensures out_after { out.new ≡ out_after inverse_limit idct8x8 coefs.now out.old }
    ensures out_after_2 { result ≡ 0 → fdct8x8 out.new ≡ coefs.now }
{
    number_of(dct::inverse(coefs, out))
}
