// A step of a path.
ghost use Rattle.std.specs.Prelude.{◌≡◌};
ghost use Rattle.wgsl.specs.Path.{step_of};
ghost use Rattle.walk_path.specs.Step.{step_is};

// To a member of a struct, or to a part of a vector, a matrix or an array; by its number.
#[derive(Clone, Copy, Debug, PartialEq, Eq)]
pub enum Step {
    Member(u32),
    Index(u32),
}

// Bit 31 tells a member step from an index step; the other bits are the number.
impl From<u32> for Step {
    ghost from_gives = { λ s result. step_is result ≡ step_of s };

    fn from(s: u32) -> Step {
        let number = s & 0x7fff_ffff;
        if s >> 31 == 1 {
            Step::Member(number)
        } else {
            Step::Index(number)
        }
    }
}
