// The two buffers of a block, by their lengths.
ghost use Rattle.std.specs.Prelude.{◌≡◌, ◌&&◌, leb};

// Whether both buffers, of so many bytes, have the size.
pub fn both_have(size: usize, factory: usize, site: usize) -> bool
    ensures { result ≡ (leb size factory && leb size site) }
{
    size <= factory && size <= site
}
