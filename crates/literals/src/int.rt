// Abstract ints as other kinds. An i64 is worked on as its pattern.
ghost use Rattle.std.specs.Prelude.{◌≡◌};
ghost use Rattle.wgsl.specs.Said.{or_refuse};
ghost use Rattle.wgsl.specs.Literal as literal;
ghost use Rattle.literals.specs.Formats.{IsFormat, Fits, to_kind};
ghost use Rattle.said.specs.Answer.{said};

use crate::float::{Format, double, half, in_format, single};
use file::kinds::{ABSTRACT_FLOAT, ABSTRACT_INT, F16, F32, I32, U32};
use said::refusal::Refusal;

// Without its sign.
fn magnitude(bits: u64) -> u64
    ensures { result ≡ (literal.whole_of bits).number }
{
    bits.cast_signed().unsigned_abs()
}

#[tactic(auto, using(crate::proofs::Parts::i32_low, crate::proofs::Parts::i32_between, crate::proofs::Parts::i32_high))]
fn in_i32(bits: u64) -> Result<u64, Refusal>
    ensures { said result ≡ or_refuse 25 0 (literal.in_i32 (literal.whole_of bits)) }
{
    if bits < 0x8000_0000 {
        return Ok(bits);
    }
    if bits < 0xffff_ffff_8000_0000 {
        return Err(Refusal::NoConversion);
    }
    Ok(bits - 0xffff_ffff_0000_0000)
}

#[tactic(auto, using(crate::proofs::Parts::u32_low, crate::proofs::Parts::u32_high))]
fn in_u32(bits: u64) -> Result<u64, Refusal>
    ensures { said result ≡ or_refuse 25 0 (literal.in_u32 (literal.whole_of bits)) }
{
    if bits < 0x1_0000_0000 {
        return Ok(bits);
    }
    Err(Refusal::NoConversion)
}

fn int_in(f: Format, bits: u64) -> Result<u64, Refusal>
    requires { Fits f }
    ensures { (g : literal.Format) → IsFormat f g → said result ≡ or_refuse 25 0 (literal.in_format g (literal.literal_of (literal.whole_of bits))) }
{
    in_format(f, 0x8000_0000_0000_0000 <= bits, magnitude(bits), 1074)
}

// As any kind.
pub fn from_int(bits: u64, to: u32) -> Result<u64, Refusal>
    ensures { said result ≡ to_kind literal.from_int bits to }
{
    match to {
        ABSTRACT_INT => Ok(bits),
        I32 => in_i32(bits),
        U32 => in_u32(bits),
        F32 => int_in(single(), bits),
        F16 => int_in(half(), bits),
        ABSTRACT_FLOAT => int_in(double(), bits),
        _ => Err(Refusal::NoConversion),
    }
}
