// Scalars, and the alignment of vectors of them.
ghost use Rattle.std.specs.Prelude.{◌≡◌, true, cond, [], ◌∷◌, ℕ, ◌≤◌, eqb};
ghost use Rattle.wgsl.specs.Types.{Scalar, scalar_kind, is_scalar_kind};
ghost use Rattle.wgsl.specs.Size.{present, width_of, vector_align};
ghost use Rattle.wgsl.specs.Rule.{unused, scalar_made};
ghost use Rattle.wgsl.specs.Place.{words_for};
ghost use Rattle.file.specs.Fields.{entry_is};
ghost use Rattle.layout_values.specs.Value.{stored_width, made_of};

use crate::value::{Broken, Value};
use file::fields::TypeEntry;
use file::kinds::{F16, F32, I32, I64};

// Whether the fields are all zero.
#[tactic(auto, unfolding(wgsl::specs::Rule::unused))]
pub fn zeros(a: u32, b: u32, c: u32, d: u32) -> bool
    ensures { result ≡ unused (a ∷ b ∷ c ∷ d ∷ []) }
{
    a == 0 && b == 0 && c == 0 && d == 0
}

// The size of a scalar, and its alignment: 0 where it has none.
pub fn scalar_size(kind: u32) -> u32
    ensures { ((s : Scalar) → scalar_kind s ≡ kind → result ≡ present (width_of s)) × (result ≤ 8) }
{
    if kind <= F32 {
        return 4;
    }
    if kind == F16 {
        return 2;
    }
    if kind < I64 {
        return 0;
    }
    8
}

// The words of a scalar of so many bytes.
pub fn scalar_words(width: u32) -> u32
    requires { width ≤ 8 }
    ensures { (result ≡ words_for width) × (result ≤ 2) }
{
    (width + 3) / 4
}

// The bytes that each word of a scalar takes that may be stored; 0 of any other.
fn stored_width(kind: u32) -> u32
    ensures { (s : Scalar) → scalar_kind s ≡ kind → result ≡ stored_width s }
{
    if kind < I32 {
        return 0;
    }
    scalar_size(kind).min(4)
}

// The alignment of a vector, and of a matrix column: 0 where it has none.
pub fn vector_align(rows: u32, kind: u32) -> u32
    requires { rows ≤ 4 }
    ensures { ((s : Scalar) → scalar_kind s ≡ kind → result ≡ present (vector_align rows s)) × (result ≤ 32) }
{
    let w = scalar_size(kind);
    if rows != 3 {
        return rows * w;
    }
    if w == 8 {
        return 0;
    }
    4 * w
}

// The words of a part, of a type with this alignment: 0 where that is absent.
pub fn unless_absent(align: u32, unit: u32) -> u32
    ensures { result ≡ cond (eqb align 0) 0 unit }
{
    if align == 0 { 0 } else { unit }
}

// A scalar's entry: kinds 0 to 6, and 13 to 15.
pub fn scalar_entry(e: TypeEntry) -> Result<Value, Broken>
    requires { is_scalar_kind e.kind ≡ true }
    ensures { (long : ℕ) → result ≡ made_of long e.reference (scalar_made (entry_is e)) }
{
    let kind = e.kind;
    if !zeros(e.columns, e.rows, e.reference, e.count) {
        return Err(Broken::Rule);
    }
    let w = scalar_size(kind);
    let narrow = stored_width(kind);
    let unit = scalar_words(w);
    Ok(Value {
        kind,
        narrow,
        reference: e.reference,
        count: 1,
        unit,
        stride: w,
        size: w,
        align: w,
    })
}
