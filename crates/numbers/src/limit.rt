// Numbers that are at most 4,294,967,295, or too large (refusal 7).
ghost use Rattle.std.specs.Prelude.{◌≡◌};
ghost use Rattle.wgsl.specs.Round.{IsPower, up};
ghost use Rattle.numbers.specs.Limit.{limited};

use crate::power::up_power;
use crate::wide::wide;

// The most that a number may be, and so the most bytes of a buffer.
pub const LIMIT: usize = 4294967295;

// The least multiple of `a` not below `n`, by the mask of `up_power`, in 64 bits; `None` where it is past the limit.
pub fn round_up(a: u32, n: u32) -> Option<u32>
    requires { IsPower a }
    ensures { result ≡ limited (up a n) }
{
    u32::try_from(up_power(wide(a), wide(n))).ok()
}
