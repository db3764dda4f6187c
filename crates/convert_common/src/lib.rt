// The common type of a list of entries.
#![tactic(auto)]

ghost use Rattle.std.specs.Prelude.{◌≡◌, List, ◌<◌, length};
ghost use Rattle.wgsl.specs.Types.{Ty};
ghost use Rattle.wgsl.specs.Rank.{common_of, common_of_all};
ghost use Rattle.convert_rank.specs.Ranked.{Pair};
ghost use Rattle.convert_common.specs.Chosen.{Listed, all_below, entry_in, entries_in, number_in};
ghost use Rattle.said.specs.Answer.{maybe_of};

use convert_rank::entry_rank;
use numbers::wide::wide;

// Whether every number of the list is below `types`.
pub fn all_below(list: &[u32], types: u32) -> bool
    ensures { result ≡ all_below list.now types }
{
    list.iter().all(|e| *e < types)
}

// "b if a has a rank to b, else a if b has one to a"
pub fn common_of_two(f: &[u8], start: usize, a: u32, b: u32) -> Option<u32>
    requires { (ts : List Ty) × Pair f.now ts start a b }
    ensures { (ts : List Ty) → Pair f.now ts start a b → maybe_of result ≡ number_in (common_of (entry_in ts a) (entry_in ts b)) }
{
    let x = wide(a);
    let y = wide(b);
    if entry_rank(f, start, x, y).is_some() {
        return Some(b);
    }
    entry_rank(f, start, y, x).and(Some(a))
}

// "A list is folded from the left": the common type of a list; none of an empty one.
#[tactic(auto, using(crate::proofs::CommonOfAll::folded_empty, crate::proofs::CommonOfAll::folded_start, crate::proofs::CommonOfAll::folded_end, crate::proofs::CommonOfAll::folded_pair, crate::proofs::CommonOfAll::folded_step, crate::proofs::CommonOfAll::folded_none))]
pub fn common_of_all(f: &[u8], start: usize, list: &[u32]) -> Option<u32>
    requires { (ts : List Ty) × Listed f.now ts start list.now }
    ensures { (ts : List Ty) → Listed f.now ts start list.now → maybe_of result ≡ number_in (common_of_all (entries_in ts list.now)) }
{
    let (first, rest) = list.split_first()?;
    let mut found = *first;
    for e in rest {
        found = common_of_two(f, start, found, *e)?;
    }
    Some(found)
}
