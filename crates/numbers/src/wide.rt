// A number of 32 bits as a count or an index, with its bound.
ghost use Rattle.std.specs.Prelude.{◌≡◌, ◌<◌};

// The same number.
pub fn wide(x: u32) -> usize
    ensures { (result ≡ x) × (result < 4294967296) }
{
    x as usize
}
