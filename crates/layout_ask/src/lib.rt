// The layout library: is a file good, and what size, alignment, minimum size and stride has an entry. The check and the four questions
// of document 01, over the promises of crates/layout_table.
#![tactic(auto)]

ghost use Rattle.std.specs.Prelude.{◌≡◌};
ghost use Rattle.wgsl.specs.Types.{Ty};
ghost use Rattle.wgsl.specs.Size.{present, min_size_of};
ghost use Rattle.wgsl.specs.Said.{or_refuse};
ghost use Rattle.wgsl.specs.Call.{check_of, size_call, align_call, min_size_call, layout_call};
ghost use Rattle.layout_values.specs.Value.{value_of};
ghost use Rattle.said.specs.Answer.{said, maybe_of, said_answer};
ghost use Rattle.layout_ask.specs.ValueFound.{value_found, marked};

use file::kinds::RUNTIME;
use file::trailer::check_trailer;
use layout_table::{accept, find};
use layout_values::value::{Value, blank};
use said::answer::Sizes;
use said::refusal::Refusal;

// How many entries an accepted file has.
// Refuses 1 to 7, 24.
#[tactic(auto, using(crate::proofs::Calls::check_types, crate::proofs::Calls::check_refused))]
pub fn check(file: &[u8]) -> Result<u32, Refusal>
    ensures { said result ≡ check_of file.now }
{
    Ok(accept(file)?.types)
}

// The value of entry `entry`.
#[tactic(auto, using(crate::proofs::Calls::found_no_trailer, crate::proofs::Calls::found_ground, crate::proofs::Calls::found_no_ground))]
fn value_of(file: &[u8], entry: u32) -> Result<Value, Refusal>
    ensures { said result ≡ value_found file.now entry }
{
    let trailer = check_trailer(file)?;
    let mut table = blank();
    Ok(find(file, trailer, entry, &mut table)?.value)
}

// A number of a value: 0 stands for an absent one.
#[tactic(auto, using(crate::proofs::Calls::marked_zero, crate::proofs::Calls::marked_other))]
fn mark(n: u32) -> Option<u32>
    ensures { maybe_of result ≡ marked n }
{
    (n != 0).then_some(n)
}

// One that is asked alone.
#[tactic(auto, unfolding(wgsl::specs::Said::or_refuse))]
fn alone(n: u32) -> Result<u32, Refusal>
    ensures { said result ≡ or_refuse 9 0 (marked n) }
{
    mark(n).ok_or(Refusal::Absent)
}

#[tactic(auto, using(crate::proofs::Calls::least_stride, crate::proofs::Calls::least_size))]
fn least(l: Value) -> u32
    ensures { (t : Ty) → l ≡ value_of l.stride l.reference t → result ≡ present (min_size_of t) }
{
    if l.kind == RUNTIME { l.stride } else { l.size }
}

// The size of an entry's type.
// Refuses 1 to 7, 24 (file), 8, 9 (it has none).
#[tactic(auto, using(crate::proofs::Calls::ask_size, crate::proofs::Calls::ask_refused), unfolding(wgsl::specs::Call::size_call))]
pub fn size(file: &[u8], entry: u32) -> Result<u32, Refusal>
    ensures { said result ≡ size_call file.now entry }
{
    alone(value_of(file, entry)?.size)
}

// The alignment of an entry's type.
// Refuses 1 to 7, 24 (file), 8, 9 (it has none).
#[tactic(auto, using(crate::proofs::Calls::ask_align, crate::proofs::Calls::ask_refused), unfolding(wgsl::specs::Call::align_call))]
pub fn align(file: &[u8], entry: u32) -> Result<u32, Refusal>
    ensures { said result ≡ align_call file.now entry }
{
    alone(value_of(file, entry)?.align)
}

// The minimum size of an entry's type: of a runtime array one stride, of any other its size.
// Refuses 1 to 7, 24 (file), 8, 9 (it has none).
#[tactic(auto, using(crate::proofs::Calls::ask_min_size, crate::proofs::Calls::ask_refused), unfolding(wgsl::specs::Call::min_size_call))]
pub fn min_size(file: &[u8], entry: u32) -> Result<u32, Refusal>
    ensures { said result ≡ min_size_call file.now entry }
{
    alone(least(value_of(file, entry)?))
}

// All four numbers of an entry's type, absent ones marked: size, alignment, minimum size, stride.
// Refuses 1 to 7, 24 (file), 8.
#[tactic(auto, using(crate::proofs::Calls::ask_layout, crate::proofs::Calls::ask_refused), unfolding(wgsl::specs::Call::layout_call))]
pub fn layout(file: &[u8], entry: u32) -> Result<Sizes, Refusal>
    ensures { said_answer result ≡ layout_call file.now entry }
{
    let value = value_of(file, entry)?;
    Ok(Sizes {
        size: mark(value.size),
        align: mark(value.align),
        min: mark(least(value)),
        stride: mark(value.own_stride()),
    })
}
