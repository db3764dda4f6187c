// Little-endian numbers at an offset of a slice of bytes.
ghost use Rattle.std.specs.Prelude.{◌≡◌, ◌+◌, ◌≤◌, length};
ghost use Rattle.wgsl.specs.Number.{load, store};

// The number that the two bytes from `at` hold.
#[tactic(auto, unfolding(wgsl::specs::Number::load))]
pub fn u16_at(b: &[u8], at: usize) -> u16
    requires { at + 2 ≤ length b.now }
    ensures { result ≡ load 2 b.now at }
{
    u16::from_le_bytes([b[at], b[at + 1]])
}

// The number that the four bytes from `at` hold.
pub fn u32_at(b: &[u8], at: usize) -> u32
    requires { at + 4 ≤ length b.now }
    ensures { result ≡ load 4 b.now at }
{
    u32::from_le_bytes([b[at], b[at + 1], b[at + 2], b[at + 3]])
}

// Stores `n` in the two bytes from `at`; no other byte changes.
#[tactic(auto, using(crate::proofs::Store::stored_two))]
pub fn store_u16(b: &mut [u8], at: usize, n: u16)
    requires { at + 2 ≤ length b.old }
    ensures { b.new ≡ store 2 b.old at n }
{
    b[at..at + 2].copy_from_slice(&n.to_le_bytes());
}

// Stores `n` in the four bytes from `at`; no other byte changes.
#[tactic(auto, using(crate::proofs::Store::stored_four))]
pub fn store_u32(b: &mut [u8], at: usize, n: u32)
    requires { at + 4 ≤ length b.old }
    ensures { b.new ≡ store 4 b.old at n }
{
    b[at..at + 4].copy_from_slice(&n.to_le_bytes());
}
