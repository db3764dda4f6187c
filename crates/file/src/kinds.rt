// The kinds of entries, by name (document 01, the table of kinds; E6).
ghost use Rattle.std.specs.Prelude.{◌≡◌};
ghost use Rattle.wgsl.specs.Types.{is_scalar_kind};

// Scalars.
pub const BOOL: u32 = 0;

pub const I32: u32 = 1;

pub const U32: u32 = 2;

pub const F32: u32 = 3;

pub const F16: u32 = 4;

pub const ABSTRACT_INT: u32 = 5;

pub const ABSTRACT_FLOAT: u32 = 6;

// Those that refer to one entry.
pub const VECTOR: u32 = 7;

pub const MATRIX: u32 = 8;

pub const ARRAY: u32 = 9;

pub const RUNTIME: u32 = 10;

pub const ATOMIC: u32 = 11;

pub const STRUCT: u32 = 12;
// Scalars of 64 bits.
pub const I64: u32 = 13;

pub const U64: u32 = 14;

pub const F64: u32 = 15;

// Whether a kind is a scalar's.
pub fn is_scalar(kind: u32) -> bool
    ensures { result ≡ is_scalar_kind kind }
{
    if kind <= ABSTRACT_FLOAT {
        return true;
    }
    if kind < I64 {
        return false;
    }
    kind <= F64
}
