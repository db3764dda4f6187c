// The kinds that refer to one lower entry: 7 to 11. Each is handed that entry's value. Five functions and no generic one: each has rules of its own.
#![tactic(auto)]

ghost use Rattle.std.specs.Prelude.{◌≡◌, ℕ, true};
ghost use Rattle.std.proofs.Math.Option.{some};
ghost use Rattle.wgsl.specs.Types.{Scalar, Ty, scalar_kind, is_scalar_kind, everywhere};
ghost use Rattle.wgsl.specs.Rule.{is_matrix_scalar, is_well_formed, vector_made, matrix_made, array_made, runtime_made, atomic_made, over_made};
ghost use Rattle.file.specs.Fields.{entry_is};
ghost use Rattle.layout_values.specs.Value.{made_of, Known, value_of};

use file::fields::TypeEntry;
use file::kinds::{
    ABSTRACT_FLOAT, ARRAY, ATOMIC, F16, F32, I32, MATRIX, RUNTIME, U32, VECTOR, is_scalar,
};
use layout_values::scalars::{scalar_size, scalar_words, unless_absent, vector_align, zeros};
use layout_values::value::{Broken, Value};

// "7 vector: rows 2-4, reference to a kind 0-6", or 13-15
#[tactic(auto, using(crate::proofs::VectorMade::vector_used, crate::proofs::VectorMade::vector_over, crate::proofs::VectorMade::vector_low, crate::proofs::VectorMade::vector_high, crate::proofs::VectorMade::vector_laid, layout_values::proofs::Unused::unused_two))]
pub fn vector(e: TypeEntry, l: Value) -> Result<Value, Broken>
    requires { Known l }
    ensures { (long : ℕ) (t : Ty) → l ≡ value_of l.stride l.reference t → result ≡ made_of long e.reference (vector_made (some t) (entry_is e)) }
{
    let rows = e.rows;
    let kind = l.kind;
    if !zeros(e.columns, e.count, 0, 0) {
        return Err(Broken::Rule);
    }
    if !is_scalar(kind) {
        return Err(Broken::Rule);
    }
    if rows < 2 {
        return Err(Broken::Rule);
    }
    if 4 < rows {
        return Err(Broken::Rule);
    }
    let w = scalar_size(kind);
    let align = vector_align(rows, kind);
    let unit = unless_absent(align, scalar_words(w));
    Ok(Value {
        kind: VECTOR,
        narrow: l.narrow,
        reference: e.reference,
        count: rows,
        unit,
        stride: w,
        size: rows * w,
        align,
    })
}

// Whether a kind is that of "f32, f16 or abstract float".
#[tactic(auto, using(crate::proofs::MatrixMade::is_f32, crate::proofs::MatrixMade::is_f16, crate::proofs::MatrixMade::is_abstract, wgsl::proofs::ScalarKind::low_scalar))]
fn suits_matrix(kind: u32) -> bool
    ensures { ((s : Scalar) → scalar_kind s ≡ kind → result ≡ is_matrix_scalar s) × (result ≡ true → is_scalar_kind kind ≡ true) }
{
    if kind == F32 {
        return true;
    }
    if kind == F16 {
        return true;
    }
    kind == ABSTRACT_FLOAT
}

// "8 matrix: columns 2-4, rows 2-4, reference to f32, f16 or abstract float"
#[tactic(auto, using(crate::proofs::MatrixMade::matrix_used, crate::proofs::MatrixMade::matrix_over, crate::proofs::MatrixMade::columns_low, crate::proofs::MatrixMade::columns_high, crate::proofs::MatrixMade::rows_low, crate::proofs::MatrixMade::rows_high, crate::proofs::MatrixMade::matrix_laid, layout_values::proofs::Unused::unused_one))]
pub fn matrix(e: TypeEntry, l: Value) -> Result<Value, Broken>
    requires { Known l }
    ensures { (long : ℕ) (t : Ty) → l ≡ value_of l.stride l.reference t → result ≡ made_of long e.reference (matrix_made (some t) (entry_is e)) }
{
    let columns = e.columns;
    let rows = e.rows;
    let kind = l.kind;
    if !zeros(e.count, 0, 0, 0) {
        return Err(Broken::Rule);
    }
    if !suits_matrix(kind) {
        return Err(Broken::Rule);
    }
    if columns < 2 {
        return Err(Broken::Rule);
    }
    if 4 < columns {
        return Err(Broken::Rule);
    }
    if rows < 2 {
        return Err(Broken::Rule);
    }
    if 4 < rows {
        return Err(Broken::Rule);
    }
    let align = vector_align(rows, kind);
    let unit = unless_absent(align, rows);
    Ok(Value {
        kind: MATRIX,
        narrow: l.narrow,
        reference: e.reference,
        count: columns,
        unit,
        stride: align,
        size: columns * align,
        align,
    })
}

// "9 array: reference, count at least 1"; an array's element isn't open. Where it has no stride, neither has the array a size.
#[tactic(auto, using(crate::proofs::ArrayMade::array_used, crate::proofs::ArrayMade::array_empty, crate::proofs::ArrayMade::array_open, crate::proofs::ArrayMade::array_large, crate::proofs::ArrayMade::array_laid, crate::proofs::ArrayMade::array_words, layout_values::proofs::Unused::unused_two, numbers::proofs::Limited::limited_some))]
pub fn array(e: TypeEntry, l: Value) -> Result<Value, Broken>
    requires { Known l }
    ensures { (long : ℕ) (t : Ty) → l ≡ value_of l.stride l.reference t → everywhere is_well_formed t ≡ true → result ≡ made_of long e.reference (array_made (some t) (entry_is e)) }
{
    let count = e.count;
    if !zeros(e.columns, e.rows, 0, 0) {
        return Err(Broken::Rule);
    }
    if count < 1 {
        return Err(Broken::Rule);
    }
    if l.opens() {
        return Err(Broken::Rule);
    }
    let stride = l.own_stride();
    let size = count.checked_mul(stride).ok_or(Broken::Large)?;
    Ok(Value {
        kind: ARRAY,
        narrow: l.narrow,
        reference: e.reference,
        count,
        unit: l.words(),
        stride,
        size,
        align: l.align,
    })
}

// "10 runtime array: reference"; its element isn't open, and has size and alignment.
#[tactic(auto, using(crate::proofs::RuntimeMade::runtime_used, crate::proofs::RuntimeMade::runtime_open, crate::proofs::RuntimeMade::runtime_unaligned, crate::proofs::RuntimeMade::runtime_laid, layout_values::proofs::Unused::unused_three, layout_values::proofs::ValueOf::unaligned, layout_values::proofs::ValueOf::element, layout_values::proofs::ValueOf::words_within))]
pub fn runtime(e: TypeEntry, l: Value) -> Result<Value, Broken>
    requires { Known l }
    ensures { (long : ℕ) (t : Ty) → l ≡ value_of l.stride l.reference t → everywhere is_well_formed t ≡ true → result ≡ made_of long e.reference (runtime_made (some t) (entry_is e)) }
{
    if !zeros(e.columns, e.rows, e.count, 0) {
        return Err(Broken::Rule);
    }
    if l.opens() {
        return Err(Broken::Rule);
    }
    let align = l.align;
    if align == 0 {
        return Err(Broken::Rule);
    }
    Ok(Value {
        kind: RUNTIME,
        narrow: l.narrow,
        reference: e.reference,
        count: 0,
        unit: l.words(),
        stride: l.own_stride(),
        size: 0,
        align,
    })
}

// "11 atomic: reference to i32 or u32"
#[tactic(auto, using(crate::proofs::AtomicMade::atomic_used, crate::proofs::AtomicMade::atomic_low, crate::proofs::AtomicMade::atomic_high, crate::proofs::AtomicMade::atomic_laid, layout_values::proofs::Unused::unused_three))]
pub fn atomic(e: TypeEntry, l: Value) -> Result<Value, Broken>
    requires { Known l }
    ensures { (long : ℕ) (t : Ty) → l ≡ value_of l.stride l.reference t → result ≡ made_of long e.reference (atomic_made (some t) (entry_is e)) }
{
    let kind = l.kind;
    if !zeros(e.columns, e.rows, e.count, 0) {
        return Err(Broken::Rule);
    }
    if kind < I32 {
        return Err(Broken::Rule);
    }
    if U32 < kind {
        return Err(Broken::Rule);
    }
    Ok(Value {
        kind: ATOMIC,
        narrow: 4,
        reference: e.reference,
        count: 1,
        unit: 1,
        stride: 4,
        size: 4,
        align: 4,
    })
}

// An entry of a kind 7 to 11.
#[tactic(auto, using(crate::proofs::OverMade::over_vector, crate::proofs::OverMade::over_matrix, crate::proofs::OverMade::over_array, crate::proofs::OverMade::over_runtime, crate::proofs::OverMade::over_atomic, crate::proofs::OverMade::over_none))]
pub fn over_entry(e: TypeEntry, l: Value) -> Result<Value, Broken>
    requires { Known l }
    ensures { (long : ℕ) (t : Ty) → l ≡ value_of l.stride l.reference t → everywhere is_well_formed t ≡ true → result ≡ made_of long e.reference (over_made (some t) (entry_is e)) }
{
    let kind = e.kind;
    if kind == VECTOR {
        return vector(e, l);
    }
    if kind == MATRIX {
        return matrix(e, l);
    }
    if kind == ARRAY {
        return array(e, l);
    }
    if kind == RUNTIME {
        return runtime(e, l);
    }
    if kind == ATOMIC {
        return atomic(e, l);
    }
    Err(Broken::Rule)
}
