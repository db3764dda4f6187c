// The rank of one scalar to another, by their kinds.
ghost use Rattle.std.specs.Prelude.{◌≡◌};
ghost use Rattle.wgsl.specs.Types.{Scalar, scalar_kind};
ghost use Rattle.wgsl.specs.Rank.{from_abstract_int, from_abstract_float, scalar_rank};
ghost use Rattle.said.specs.Answer.{maybe_of};

use file::kinds::{ABSTRACT_FLOAT, ABSTRACT_INT, F16, F32, I32, U32};

// "abstract int to i32 3, u32 4, abstract float 5, f32 6, f16 7"
#[tactic(auto, using(crate::proofs::ScalarRank::int_i32, crate::proofs::ScalarRank::int_u32, crate::proofs::ScalarRank::int_float, crate::proofs::ScalarRank::int_f32, crate::proofs::ScalarRank::int_f16, crate::proofs::ScalarRank::int_none))]
fn from_abstract_int(kind: u32) -> Option<u32>
    ensures { (s : Scalar) → scalar_kind s ≡ kind → (kind ≡ 5 → ⊥) → maybe_of result ≡ from_abstract_int s }
{
    match kind {
        I32 => Some(3),
        U32 => Some(4),
        ABSTRACT_FLOAT => Some(5),
        F32 => Some(6),
        F16 => Some(7),
        _ => None,
    }
}

// "abstract float to f32 1, f16 2"
#[tactic(auto, using(crate::proofs::ScalarRank::float_f32, crate::proofs::ScalarRank::float_f16, crate::proofs::ScalarRank::float_none))]
fn from_abstract_float(kind: u32) -> Option<u32>
    ensures { (s : Scalar) → scalar_kind s ≡ kind → (kind ≡ 6 → ⊥) → maybe_of result ≡ from_abstract_float s }
{
    match kind {
        F32 => Some(1),
        F16 => Some(2),
        _ => None,
    }
}

// The rank of the scalar of kind `a` to that of kind `b`.
#[tactic(auto, using(crate::proofs::ScalarRank::scalar_same, crate::proofs::ScalarRank::scalar_int, crate::proofs::ScalarRank::scalar_float, crate::proofs::ScalarRank::scalar_none))]
pub fn scalar_rank(a: u32, b: u32) -> Option<u32>
    ensures { (s t : Scalar) → scalar_kind s ≡ a → scalar_kind t ≡ b → maybe_of result ≡ scalar_rank s t }
{
    if a == b {
        return Some(0);
    }
    match a {
        ABSTRACT_INT => from_abstract_int(b),
        ABSTRACT_FLOAT => from_abstract_float(b),
        _ => None,
    }
}
