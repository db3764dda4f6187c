// Powers of two.
ghost use Rattle.std.specs.Prelude.{◌≡◌, ◌≤◌};
ghost use Rattle.wgsl.specs.Round.{is_power, IsPower, up, limit};

// Whether `a` is a power of two.
pub fn is_power(a: u32) -> bool
    ensures { result ≡ is_power a }
{
    a.is_power_of_two()
}

// The least multiple of `a` not below `n`, by a mask.
pub fn up_power(a: usize, n: usize) -> usize
    requires { IsPower a × (a ≤ 2147483648) × (n ≤ limit) }
    ensures { result ≡ up a n }
{
    (n + (a - 1)) & !(a - 1)
}
