// Type entries and member entries, field by field.
ghost use Rattle.std.specs.Prelude.{◌≡◌, ◌+◌, ◌≤◌, ◌<◌, length};
ghost use Rattle.wgsl.specs.Number.{load};
ghost use Rattle.wgsl.specs.File.{member_entry_length, type_entry_length, type_entry_from, member_fields_length, member_entry_from};
ghost use Rattle.file.specs.Fields.{entry_is, member_is};

use numbers::bytes::{u16_at, u32_at};

// How long a type entry is.
pub const TYPE_ENTRY_LENGTH: usize = 12;

// How long a member entry is, by the file's form: a number of 32 bits, as a struct's value carries it. It is said here alone.
pub fn member_length(form: u32) -> u32
    ensures { (result ≡ member_entry_length form) × (result ≤ 16) }
{
    if form == 2 {
        return 16;
    }
    12
}

// A type entry.
#[derive(Clone, Copy, Debug, PartialEq, Eq)]
pub struct TypeEntry {
    pub kind: u32,
    pub columns: u32,
    pub rows: u32,
    pub zero3: u32,
    pub reference: u32,
    pub zero6: u32,
    pub count: u32,
}

// A member entry.
#[derive(Clone, Copy, Debug, PartialEq, Eq)]
pub struct MemberEntry {
    pub ty: u32,
    pub flags: u32,
    pub size: u32,
    pub align: u32,
}

// The number in one byte, and in two, with its bound.
pub fn byte(f: &[u8], at: usize) -> u32
    requires { at + 1 ≤ length f.now }
    ensures { (result ≡ load 1 f.now at) × (result < 256) }
{
    u32::from(f[at])
}

pub fn half(f: &[u8], at: usize) -> u32
    requires { at + 2 ≤ length f.now }
    ensures { (result ≡ load 2 f.now at) × (result < 65536) }
{
    u32::from(u16_at(f, at))
}

// The type entry that begins at `at`.
pub fn entry_at(f: &[u8], at: usize) -> TypeEntry
    requires { at + type_entry_length ≤ length f.now }
    ensures { entry_is result ≡ type_entry_from f.now at }
{
    TypeEntry {
        kind: byte(f, at),
        columns: byte(f, at + 1),
        rows: byte(f, at + 2),
        zero3: byte(f, at + 3),
        reference: half(f, at + 4),
        zero6: half(f, at + 6),
        count: u32_at(f, at + 8),
    }
}

// The member entry that begins at `at`.
pub fn member_at(f: &[u8], at: usize) -> MemberEntry
    requires { at + member_fields_length ≤ length f.now }
    ensures { member_is result ≡ member_entry_from f.now at }
{
    MemberEntry {
        ty: half(f, at),
        flags: half(f, at + 2),
        size: u32_at(f, at + 4),
        align: u32_at(f, at + 8),
    }
}
