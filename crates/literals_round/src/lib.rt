// Rounding to nearest, ties to even, on bits: once over the digits of the target (02, E14).
#![tactic(auto)]

ghost use Rattle.std.specs.Prelude.{◌≡◌, ◌+◌, ◌-◌, ◌*◌, ◌/◌, ◌%◌, ◌^◌, ◌<◌, ◌≤◌};
ghost use Rattle.std.specs.Float.Ieee.{size};
ghost use Rattle.wgsl.specs.Literal.{stepped, rounded};

// How many binary digits a number has.
fn digits(n: u64) -> u32
    ensures { result ≡ size n }
{
    u64::BITS - n.leading_zeros()
}

// A number without its lowest `drop` bits, rounded by them. By two tests: a match on `cmp` took 1.1 of the time.
fn dropped(number: u64, drop: u32) -> u64
    requires { (0 < drop) × (drop < 64) }
    ensures { result ≡ stepped (number / 2 ^ drop) (number % 2 ^ drop) (2 ^ drop) }
{
    let q = number >> drop;
    let rest = number & ((1u64 << drop) - 1);
    let half = 1u64 << (drop - 1);
    if rest < half {
        return q;
    }
    if half < rest {
        return q + 1;
    }
    q + (q & 1)
}

// How often 2 ^ unit goes into number * 2 ^ power, rounded by what is left.
fn kept(number: u64, power: u32, unit: u32) -> u64
    requires { (number ≤ 9223372036854775808) × (size number + power ≤ unit + 53) }
    ensures { result ≡ stepped (number * 2 ^ power / 2 ^ unit) (number * 2 ^ power % 2 ^ unit) (2 ^ unit) }
{
    if unit <= power {
        return number << (power - unit);
    }
    if 63 < unit - power {
        return 0;
    }
    dropped(number, unit - power)
}

// The pattern that is nearest to number * 2 ^ power, in units of 2 ^ unit, where the lowest `d` bits of a pattern are its fraction.
pub fn round_to(number: u64, power: u32, d: u32, unit: u32) -> u64
    requires { (number ≤ 9223372036854775808) × (power ≤ 2046) × (0 < d) × (d ≤ 52) × (unit ≤ 1074) }
    ensures { result ≡ rounded d (2 ^ unit) (number * 2 ^ power) }
{
    if number == 0 {
        return 0;
    }
    let k = (digits(number) + power).saturating_sub(unit + d + 1);
    (u64::from(k) << d) + kept(number, power, unit + k)
}
