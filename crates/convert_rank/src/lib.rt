// The rank of one entry's type to another's, in an accepted file.
#![tactic(auto)]

pub mod scalar;

ghost use Rattle.std.specs.Prelude.{◌≡◌, List, ◌+◌, ◌*◌, ◌≤◌, length};
ghost use Rattle.std.proofs.Math.Option.{some};
ghost use Rattle.std.proofs.Math.ListN.{get_elem?};
ghost use Rattle.wgsl.specs.Types.{Scalar, Ty, scalar_kind};
ghost use Rattle.wgsl.specs.Said.{good};
ghost use Rattle.wgsl.specs.File.{type_entry_length, trailer_of, type_entry_at};
ghost use Rattle.wgsl.specs.Rule.{types_of};
ghost use Rattle.wgsl.specs.Rank.{rank_of};
ghost use Rattle.file.specs.Fields.{entry_is};
ghost use Rattle.convert_rank.specs.Ranked.{Pair, over_scalar};
ghost use Rattle.said.specs.Answer.{maybe_of};

use crate::scalar::scalar_rank;
use file::fields::{TYPE_ENTRY_LENGTH, TypeEntry, entry_at};
use file::kinds::{ARRAY, MATRIX, RUNTIME, STRUCT, VECTOR, is_scalar};
use numbers::wide::wide;

// Type entry `k`, where the entries begin at `start`.
fn entry_of(f: &[u8], start: usize, k: usize) -> TypeEntry
    requires { (start ≡ (trailer_of f.now).start) × (start + type_entry_length * k + type_entry_length ≤ length f.now) }
    ensures { entry_is result ≡ type_entry_at f.now k }
{
    entry_at(f, start + TYPE_ENTRY_LENGTH * k)
}

// The rank of two types of one kind over scalars of kinds `u` and `v`: two vectors, two matrices or two atomics, with the fields `x` and `y`.
#[tactic(auto, using(crate::proofs::OverScalar::vectors_rank, crate::proofs::OverScalar::vectors_other, crate::proofs::OverScalar::matrices_rank, crate::proofs::OverScalar::columns_other, crate::proofs::OverScalar::rows_other, crate::proofs::OverScalar::atomics_same, crate::proofs::OverScalar::atomics_other))]
fn over_scalar_rank(x: TypeEntry, y: TypeEntry, u: u32, v: u32) -> Option<u32>
    requires { x.kind ≡ y.kind }
    ensures { (s t : Scalar) → scalar_kind s ≡ u → scalar_kind t ≡ v → maybe_of result ≡ rank_of (over_scalar (entry_is x) s) (over_scalar (entry_is y) t) }
{
    match x.kind {
        VECTOR if x.rows == y.rows => scalar_rank(u, v),
        MATRIX if x.columns == y.columns && x.rows == y.rows => scalar_rank(u, v),
        VECTOR | MATRIX => None,
        // atomics convert to nothing else
        _ => (u == v).then_some(0),
    }
}

// The rank of entry `a` to entry `b` of an accepted file whose entries begin at `start`. Walks both types down by their references.
#[tactic(auto, using(crate::proofs::PairRank::first_inside, crate::proofs::PairRank::second_inside, crate::proofs::PairRank::two_read, crate::proofs::PairRank::lower_pair, crate::proofs::PairRank::scalars_rank, crate::proofs::PairRank::scalar_other, crate::proofs::PairRank::kinds_other, crate::proofs::PairRank::structs_same, crate::proofs::PairRank::structs_other, crate::proofs::PairRank::arrays_other, crate::proofs::PairRank::arrays_rank, crate::proofs::PairRank::runtimes_rank, crate::proofs::PairRank::over_scalars_rank))]
pub fn entry_rank(f: &[u8], start: usize, a: usize, b: usize) -> Option<u32>
    requires { (ts : List Ty) × Pair f.now ts start a b }
    ensures { (ts : List Ty) (s t : Ty) → types_of f.now ≡ good ts → get_elem? ts a ≡ some s → get_elem? ts b ≡ some t → maybe_of result ≡ rank_of s t }
{
    let x = entry_of(f, start, a);
    let y = entry_of(f, start, b);
    if is_scalar(x.kind) {
        if !is_scalar(y.kind) {
            return None;
        }
        return scalar_rank(x.kind, y.kind);
    }
    if x.kind != y.kind {
        return None;
    }
    let p = wide(x.reference);
    let q = wide(y.reference);
    match x.kind {
        // "structs by entry number"
        STRUCT => (a == b).then_some(0),
        ARRAY if x.count != y.count => None,
        ARRAY | RUNTIME => entry_rank(f, start, p, q),
        _ => over_scalar_rank(x, y, entry_of(f, start, p).kind, entry_of(f, start, q).kind),
    }
}
