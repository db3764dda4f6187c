// The mask of a block: bit k says that member k was set on site.
ghost use Rattle.std.specs.Prelude.{◌≡◌, ◌<◌, ◌≤◌, ◌-◌, ◌^◌};
ghost use Rattle.wgsl.specs.BitField.{bit_at};
ghost use Rattle.wgsl.specs.Site.{with_bit, without_bit};

// Whether member `k` was set on site.
pub fn bit(mask: u64, k: u32) -> bool
    requires { k < 64 }
    ensures { result ≡ bit_at mask k }
{
    mask >> k & 1 == 1
}

// The same of any number: a mask has 64 bits.
pub fn is_set(mask: u64, k: u32) -> bool
    ensures { result ≡ bit_at mask k }
{
    if 63 < k {
        return false;
    }
    bit(mask, k)
}

// The mask with bit `k`.
pub fn with_bit(mask: u64, k: u32) -> u64
    requires { k < 64 }
    ensures { result ≡ with_bit mask k }
{
    if bit(mask, k) {
        return mask;
    }
    mask + (1 << k)
}

// The mask without bit `k`.
pub fn without_bit(mask: u64, k: u32) -> u64
    requires { k < 64 }
    ensures { result ≡ without_bit mask k }
{
    if bit(mask, k) {
        return mask - (1 << k);
    }
    mask
}

// The mask with the bits of the first `count` members.
fn every_bit(count: u32) -> u64
    requires { count ≤ 64 }
    ensures { result ≡ 2 ^ count - 1 }
{
    if count == 64 {
        return 0xffff_ffff_ffff_ffff;
    }
    (1 << count) - 1
}

// Every member's bit, whatever the mask held.
pub fn mark_all(mask: &mut u64, count: u32)
    requires { count ≤ 64 }
    ensures { mask.new ≡ 2 ^ count - 1 }
{
    *mask = every_bit(count);
}
