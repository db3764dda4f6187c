// Literals as floats: rounded into a format, and abstract floats taken apart.
ghost use Rattle.std.specs.Prelude.{◌≡◌, ◌*◌, ◌^◌, ◌<◌, ◌≤◌};
ghost use Rattle.wgsl.specs.Said.{or_refuse};
ghost use Rattle.wgsl.specs.Rule.{and_then};
ghost use Rattle.wgsl.specs.Literal as literal;
ghost use Rattle.literals.specs.Formats.{IsFormat, Fits, number_in, power_in, to_kind};
ghost use Rattle.said.specs.Answer.{said};

use file::kinds::{ABSTRACT_FLOAT, F16, F32};
use literals_round::round_to;
use said::refusal::Refusal;

// A float's format: the bits of its fraction, its unit as a power of two over 2 ^ -1074, and what infinity and the sign are as patterns.
#[derive(Clone, Copy, Debug, PartialEq, Eq)]
pub struct Format {
    pub digits: u32,
    pub unit: u32,
    pub infinity: u64,
    pub sign: u64,
}

// The three formats are functions, and no constants that one function takes: contracts speak of what each answers.

#[tactic(auto, unfolding(wgsl::specs::Literal::sign_of, wgsl::specs::Literal::infinity, wgsl::specs::Literal::lowest, wgsl::specs::Literal::unit_of))]
pub fn half() -> Format
    ensures { IsFormat result literal.half × Fits result }
{
    Format {
        digits: 10,
        unit: 1050,
        infinity: 0x7c00,
        sign: 0x8000,
    }
}

#[tactic(auto, unfolding(wgsl::specs::Literal::sign_of, wgsl::specs::Literal::infinity, wgsl::specs::Literal::lowest, wgsl::specs::Literal::unit_of))]
pub fn single() -> Format
    ensures { IsFormat result literal.single × Fits result }
{
    Format {
        digits: 23,
        unit: 925,
        infinity: 0x7f80_0000,
        sign: 0x8000_0000,
    }
}

#[tactic(auto, unfolding(wgsl::specs::Literal::sign_of, wgsl::specs::Literal::infinity, wgsl::specs::Literal::lowest, wgsl::specs::Literal::unit_of))]
pub fn double() -> Format
    ensures { IsFormat result literal.double × Fits result }
{
    Format {
        digits: 52,
        unit: 0,
        infinity: 0x7ff0_0000_0000_0000,
        sign: 0x8000_0000_0000_0000,
    }
}

// The number * 2 ^ power, of units of 2 ^ -1074, with its sign in a format.
pub fn in_format(f: Format, negative: bool, number: u64, power: u32) -> Result<u64, Refusal>
    requires { Fits f × (number ≤ 9223372036854775808) × (power ≤ 2046) }
    ensures { (g : literal.Format) → IsFormat f g → said result ≡ or_refuse 25 0 (literal.in_format g (record { negative = negative; worth = number * 2 ^ power })) }
{
    let pattern = round_to(number, power, f.digits, f.unit);
    if f.infinity <= pattern {
        return Err(Refusal::NoConversion);
    }
    if negative {
        return Ok(f.sign + pattern);
    }
    Ok(pattern)
}

// The number and the power of two that a pattern of an abstract float, without its sign, stands for.
#[tactic(auto, using(crate::proofs::Parts::number_low, crate::proofs::Parts::number_high))]
fn number_of(pattern: u64) -> u64
    ensures { result ≡ number_in pattern }
{
    if pattern < 0x10_0000_0000_0000 {
        return pattern;
    }
    0x10_0000_0000_0000 + pattern % 0x10_0000_0000_0000
}

#[tactic(auto, using(crate::proofs::Parts::power_is))]
fn power_of(pattern: u64) -> u32
    requires { pattern < 9218868437227405312 }
    ensures { result ≡ power_in pattern }
{
    (pattern / 0x10_0000_0000_0000).saturating_sub(1) as u32
}

// An abstract float in a format.
fn float_in(f: Format, bits: u64) -> Result<u64, Refusal>
    requires { Fits f }
    ensures { (g : literal.Format) → IsFormat f g → said result ≡ or_refuse 25 0 (and_then (literal.float_of bits) (literal.in_format g)) }
{
    let pattern = bits % 0x8000_0000_0000_0000;
    if 0x7ff0_0000_0000_0000 <= pattern {
        return Err(Refusal::NoConversion);
    }
    in_format(
        f,
        0x8000_0000_0000_0000 <= bits,
        number_of(pattern),
        power_of(pattern),
    )
}

// An abstract float as another kind.
pub fn from_float(bits: u64, to: u32) -> Result<u64, Refusal>
    ensures { said result ≡ to_kind literal.from_float bits to }
{
    match to {
        ABSTRACT_FLOAT => Ok(bits),
        F32 => float_in(single(), bits),
        F16 => float_in(half(), bits),
        _ => Err(Refusal::NoConversion),
    }
}
