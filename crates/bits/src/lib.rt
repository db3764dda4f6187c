// WGSL's extractBits and insertBits for u32 and i32, on any numbers: o = min(offset, 32), c = min(count, 32 - o).
// Worked in 64 bits, where a shift by 32 is one like any other, so no case stands apart and nothing branches.
// By hand where std has a method: by `min`, `From` and the casts of std a field takes 1.1 to 1.3 times as long.
#![tactic(auto)]

ghost use Rattle.std.specs.Prelude.{◌≡◌, ◌^◌, ◌<◌, ◌≤◌};
ghost use Rattle.wgsl.specs.BitField.{start_of, bits_of, field_at, repeated_top, extracted_u32, extracted_i32, inserted, pattern_of, signed_of};

// A number of 32 bits as one of 64, with its bound.
fn wide(x: u32) -> u64
    ensures { (result ≡ x) × (result < 4294967296) }
{
    x as u64
}

// Where the field starts: o.
fn start_of(offset: u32) -> u32
    ensures { (result ≡ start_of offset) × (result ≤ 32) }
{
    if offset < 32 {
        return offset;
    }
    32
}

// How many bits it has: c.
fn bits_of(offset: u32, count: u32) -> u32
    ensures { (result ≡ bits_of offset count) × (result ≤ 32) }
{
    let left = 32 - start_of(offset);
    if count < left {
        return count;
    }
    left
}

// The c bits of `e` from bit o on, as a number.
fn field(e: u32, o: u32, c: u32) -> u64
    requires { (o ≤ 32) × (c ≤ 32) }
    ensures { (result ≡ field_at e o c) × (result < 2 ^ c) × (result < 4294967296) }
{
    let mask = (1u64 << c) - 1;
    (wide(e) >> o) & mask
}

// A field of c bits with its top bit repeated above, up to bit 31: 2 ^ 32 - 2 ^ c is added where that bit is set.
fn repeated(c: u32, v: u64) -> u64
    requires { (c ≤ 32) × (v < 2 ^ c) }
    ensures { (result ≡ repeated_top c v) × (result < 4294967296) }
{
    let top = (v << 1) >> c;
    v + (top << 32) - (top << c)
}

// An i32 as the word of the same bits.
fn pattern(e: i32) -> u32
    ensures { result ≡ pattern_of e }
{
    if e < 0 {
        return 4294967295 - ((-1 - e) as u32);
    }
    e as u32
}

// A word as the i32 of the same bits.
fn signed(p: u32) -> i32
    ensures { result ≡ signed_of p }
{
    if p < 2147483648 {
        return p as i32;
    }
    -1 - ((4294967295 - p) as i32)
}

// The c bits of `e` from bit o on, and 0 above them.
pub fn extract_bits_u32(e: u32, offset: u32, count: u32) -> u32
    ensures { result ≡ extracted_u32 e offset count }
{
    field(e, start_of(offset), bits_of(offset, count)) as u32
}

// The same of the pattern of an i32, with the field's top bit repeated above; as a pattern.
pub fn extract_pattern(e: u32, offset: u32, count: u32) -> u32
    ensures { result ≡ extracted_i32 e offset count }
{
    let c = bits_of(offset, count);
    repeated(c, field(e, start_of(offset), c)) as u32
}

// The same of an i32, as a signed number.
pub fn extract_bits_i32(e: i32, offset: u32, count: u32) -> i32
    ensures { result ≡ signed_of (extracted_i32 (pattern_of e) offset count) }
{
    signed(extract_pattern(pattern(e), offset, count))
}

// `e` with the low c bits of `newbits` in the c bits from bit o on, and no other bit changed.
pub fn insert_bits_u32(e: u32, newbits: u32, offset: u32, count: u32) -> u32
    ensures { result ≡ inserted e newbits offset count }
{
    let o = start_of(offset);
    let c = bits_of(offset, count);
    let old = field(e, o, c);
    let new = field(newbits, 0, c);
    (wide(e) - (old << o) + (new << o)) as u32
}

// The same of an i32.
pub fn insert_bits_i32(e: i32, newbits: i32, offset: u32, count: u32) -> i32
    ensures { result ≡ signed_of (inserted (pattern_of e) (pattern_of newbits) offset count) }
{
    signed(insert_bits_u32(pattern(e), pattern(newbits), offset, count))
}
