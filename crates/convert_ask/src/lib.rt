// The two questions on conversion.
#![tactic(auto)]

ghost use Rattle.std.specs.Prelude.{◌≡◌};
ghost use Rattle.wgsl.specs.Call.{rank_call, common_call};
ghost use Rattle.said.specs.Answer.{said};

use convert_common::{all_below, common_of_all};
use convert_rank::entry_rank;
use layout_table::accept;
use numbers::wide::wide;
use said::refusal::Refusal;

// The rank of entry `a`'s type to entry `b`'s.
// Refuses 1 to 7, 24 (file), 8 (either number), 18 (no rank).
#[tactic(auto, using(crate::proofs::Calls::rank_refused))]
pub fn rank(file: &[u8], a: u32, b: u32) -> Result<u32, Refusal>
    ensures { said result ≡ rank_call file.now a b }
{
    let trailer = accept(file)?;
    if trailer.types <= a {
        return Err(Refusal::Missing);
    }
    if trailer.types <= b {
        return Err(Refusal::Missing);
    }
    let start = wide(trailer.start);
    entry_rank(file, start, wide(a), wide(b)).ok_or(Refusal::NoRank)
}

// The common type of the listed entries, as one of their numbers.
// Refuses 1 to 7, 24 (file), 8 (any number), 18 (no common type, or an empty list).
#[tactic(auto, using(crate::proofs::Calls::common_refused))]
pub fn common(file: &[u8], list: &[u32]) -> Result<u32, Refusal>
    ensures { said result ≡ common_call file.now list.now }
{
    let trailer = accept(file)?;
    if !all_below(list, trailer.types) {
        return Err(Refusal::Missing);
    }
    common_of_all(file, wide(trailer.start), list).ok_or(Refusal::NoRank)
}
