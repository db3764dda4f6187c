// One gap: from where the bytes that were passed end to the next place.
ghost use Rattle.std.specs.Prelude.{◌≡◌, true, ℕ, ◌+◌, ◌<◌, ◌≤◌, length, get_or};
ghost use Rattle.gaps_sweep.specs.Sweep.{swept_of, swept_byte, swept_to, passed, Countable};

use numbers::bytes::u32_at;

// Where the bytes that were passed end; how many bytes changed so far, and the first of them.
#[derive(Clone, Copy)]
pub struct Sweep {
    pub from: usize,
    pub changed: usize,
    pub first: usize,
}

// Whether the bytes from `from` to `to` are zero, byte by byte.
fn bytes_are_zero(buf: &[u8], from: usize, to: usize) -> bool
    requires { to ≤ length buf.now }
    ensures { result ≡ true → (k : ℕ) → from ≤ k → k < to → get_or buf.now k 0 ≡ 0 }
{
    let mut i = from;
    while i < to {
        if buf[i] != 0 {
            return false;
        }
        i += 1;
    }
    true
}

// The same, four at a time: most gaps are. Both by `while`: by `for` over the quarters, and over a slice that shortens, cleaning columns took
// up to 1.8 of the time.
fn are_zero(buf: &[u8], from: usize, to: usize) -> bool
    requires { to ≤ length buf.now }
    ensures { result ≡ true → (k : ℕ) → from ≤ k → k < to → get_or buf.now k 0 ≡ 0 }
{
    let mut i = from;
    while i < to {
        if to - i < 4 {
            return bytes_are_zero(buf, i, to);
        }
        if u32_at(buf, i) != 0 {
            return false;
        }
        i += 4;
    }
    true
}

// Byte `i` becomes zero.
#[tactic(auto, unfolding(crate::specs::Sweep::swept_byte))]
fn sweep_byte(buf: &mut [u8], s: Sweep, i: usize) -> Sweep
    requires { (i < length buf.old) × Countable (swept_of buf.old s) }
    ensures { swept_of buf.new result ≡ swept_byte i (swept_of buf.old s) }
{
    if buf[i] == 0 {
        return s;
    }
    buf[i] = 0;
    let first = if s.changed == 0 { i } else { s.first };
    Sweep {
        changed: s.changed + 1,
        first,
        ..s
    }
}

// The bytes from `s.from` to `to` become zero, one by one.
fn sweep_bytes(buf: &mut [u8], s: Sweep, to: usize) -> Sweep
    requires { (to ≤ length buf.old) × Countable (swept_of buf.old s) }
    ensures { swept_of buf.new result ≡ swept_to to (swept_of buf.old s) }
{
    let mut r = s;
    for i in s.from..to {
        r = sweep_byte(buf, r, i);
    }
    r
}

// The bytes from `s.from` to `to` become zero.
#[tactic(auto, using(crate::proofs::Sweep::zero_stays))]
pub fn sweep_to(buf: &mut [u8], s: Sweep, to: usize) -> Sweep
    requires { (to ≤ length buf.old) × Countable (swept_of buf.old s) }
    ensures { swept_of buf.new result ≡ swept_to to (swept_of buf.old s) }
{
    if are_zero(buf, s.from, to) {
        return s;
    }
    sweep_bytes(buf, s, to)
}

// The same, and then `bytes` bytes from `to` on are passed, which stay.
#[tactic(auto, unfolding(crate::specs::Sweep::going_on, crate::specs::Sweep::passed))]
pub fn pass(buf: &mut [u8], s: Sweep, to: usize, bytes: usize) -> Sweep
    requires { (to + bytes ≤ length buf.old) × Countable (swept_of buf.old s) }
    ensures { swept_of buf.new result ≡ passed to bytes (swept_of buf.old s) }
{
    let r = sweep_to(buf, s, to);
    Sweep {
        from: to + bytes,
        ..r
    }
}
