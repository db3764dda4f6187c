// Literals converted (02, E14): a pattern of bits of one kind of scalar, as another.
#![tactic(auto)]

pub mod float;
pub mod int;

ghost use Rattle.std.specs.Prelude.{◌≡◌, ◌%◌, ◌^◌};
ghost use Rattle.wgsl.specs.Types.{Scalar, scalar_kind};
ghost use Rattle.wgsl.specs.Literal.{pattern_bits, convert_call};
ghost use Rattle.said.specs.Answer.{said};

use crate::float::from_float;
use crate::int::from_int;
use file::kinds::{ABSTRACT_FLOAT, ABSTRACT_INT, BOOL, F16, F32, is_scalar};
use said::refusal::Refusal;

// The pattern of a scalar of this kind, in the lowest bits.
fn low_bits(kind: u32, bits: u64) -> u64
    ensures { (s : Scalar) → scalar_kind s ≡ kind → result ≡ bits % 2 ^ pattern_bits s }
{
    if kind == BOOL {
        return bits % 2;
    }
    if kind <= F32 {
        return bits % 0x1_0000_0000;
    }
    if kind == F16 {
        return bits % 0x1_0000;
    }
    bits
}

// The pattern `bits` of kind `from` as one of kind `to`; else 25.
pub fn convert(from: u32, bits: u64, to: u32) -> Result<u64, Refusal>
    ensures { said result ≡ convert_call from bits to }
{
    if from == ABSTRACT_INT {
        return from_int(bits, to);
    }
    if from == ABSTRACT_FLOAT {
        return from_float(bits, to);
    }
    if from != to {
        return Err(Refusal::NoConversion);
    }
    if !is_scalar(from) {
        return Err(Refusal::NoConversion);
    }
    Ok(low_bits(from, bits))
}
