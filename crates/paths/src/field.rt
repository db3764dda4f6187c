// Bit fields of one i32 or u32 at a path. Document 02's order is that of a set, with 14 for a scalar of another type too.
ghost use Rattle.std.specs.Prelude.{◌≡◌, List, ℕ, length, Ok};
ghost use Rattle.wgsl.specs.Path as path;
ghost use Rattle.wgsl.specs.Call.{answer_of, contents_of};
ghost use Rattle.wgsl.specs.BitFieldCall.{FoundInteger, integer_at, word_of, extracted_as, extract_call, insert_call, integer_of};
ghost use Rattle.said.specs.Target.{target_is};
ghost use Rattle.paths.specs.Field.{found_in, Integer, FieldPut};
ghost use Rattle.said.specs.Answer.{said};

use crate::locate::locate;
use bits::{extract_bits_u32, extract_pattern, insert_bits_u32};
use file::kinds::{I32, U32};
use numbers::bytes::{store_u32, u32_at};
use said::refusal::Refusal;
use said::target::Target;

// 14, but for an i32 or a u32.
fn integer_of(t: Target) -> Result<Target, Refusal>
    ensures { (u : path.Target) → t ≡ target_is u → said result ≡ found_in (integer_of u) }
{
    if t.scalar == I32 {
        return Ok(t);
    }
    if t.scalar == U32 {
        return Ok(t);
    }
    Err(Refusal::Count)
}

// The one i32 or u32 that `path` leads to in a buffer of so many bytes.
fn integer_at(file: &[u8], entry: u32, path: &[u32], bytes: usize) -> Result<Target, Refusal>
    ensures { (b : List ℕ) → length b ≡ bytes → said result ≡ found_in (integer_at file.now entry path.now b) }
{
    let target = locate(file, entry, path, bytes, true)?;
    integer_of(target)
}

// The field of the scalar `t`, as a word.
fn field_of(t: Target, offset: u32, count: u32, buf: &[u8]) -> u32
    requires { (x : FoundInteger) × Integer t x (length buf.now) }
    ensures { (x : FoundInteger) → Integer t x (length buf.now) → result ≡ extracted_as x.scalar (word_of x buf.now) offset count }
{
    let at = t.offset;
    let word = u32_at(buf, at);
    if t.scalar == I32 {
        return extract_pattern(word, offset, count);
    }
    extract_bits_u32(word, offset, count)
}

// Puts `newbits` into the field of the scalar `t`.
fn put_field(
    t: Target,
    newbits: u32,
    offset: u32,
    count: u32,
    buf: &mut [u8],
) -> Result<u32, Refusal>
    requires { (x : FoundInteger) × Integer t x (length buf.old) }
    ensures answer { result ≡ Ok t.offset }
    ensures buffer { FieldPut t newbits offset count buf.old buf.new }
{
    let at = t.offset;
    let word = u32_at(buf, at);
    store_u32(buf, at, insert_bits_u32(word, newbits, offset, count));
    Ok(at as u32)
}

// The bits of the one i32 or u32 that `path` leads to from entry `entry`: WGSL's extractBits, as a word (of an i32, its pattern).
// Refuses 1 to 7, 24 (file), 8, 17, 9 (no layout), 10, 15, 11 to 13 (the first bad step), 14 (no i32 or u32).
pub fn extract_bits(
    file: &[u8],
    entry: u32,
    path: &[u32],
    buf: &[u8],
    offset: u32,
    count: u32,
) -> Result<u32, Refusal>
    ensures { said result ≡ extract_call file.now entry path.now buf.now offset count }
{
    let target = integer_at(file, entry, path, buf.len())?;
    Ok(field_of(target, offset, count, buf))
}

// Puts the low bits of `newbits` there, by WGSL's insertBits, and answers the scalar's offset. Every other bit stays.
// Refuses as `extract_bits` does.
pub fn insert_bits(
    file: &[u8],
    entry: u32,
    path: &[u32],
    newbits: u32,
    offset: u32,
    count: u32,
    buf: &mut [u8],
) -> Result<u32, Refusal>
    ensures answer { said result ≡ answer_of (insert_call file.now entry path.now newbits offset count buf.old) }
    ensures buffer { buf.new ≡ contents_of buf.old (insert_call file.now entry path.now newbits offset count buf.old) }
{
    let target = integer_at(file, entry, path, buf.len())?;
    put_field(target, newbits, offset, count, buf)
}
