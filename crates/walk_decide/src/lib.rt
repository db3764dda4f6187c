// What calls decide before they go through an entry: 17, 9 and 10, 16, how many elements a runtime array has, and what lies after the
// fixed part.
#![tactic(auto)]

ghost use Rattle.std.specs.Prelude.{◌≡◌, true, ◌<◌, ◌≤◌};
ghost use Rattle.wgsl.specs.Types.{Ty, everywhere};
ghost use Rattle.wgsl.specs.Rule.{is_well_formed};
ghost use Rattle.wgsl.specs.Call.{allowed};
ghost use Rattle.wgsl.specs.Round.{limit};
ghost use Rattle.layout_values.specs.Value.{value_of};
ghost use Rattle.walk_trees.specs.Slot.{Counted};
ghost use Rattle.walk_decide.specs.Decide.{elements_of, extent_for, elements_found, rest_from, Findable, open_rest, closed_rest};
ghost use Rattle.said.specs.Answer.{said};

use file::kinds::RUNTIME;
use layout_values::value::{Value, value_at};
use numbers::limit::LIMIT;
use said::refusal::Refusal;
use walk_trees::member_in;

// 17 and 9, and 10 too for an entry that is to be stored: for an entry of the value `l` and a buffer of so many bytes.
pub fn allow(l: Value, bytes: usize, stored: bool) -> Result<(), Refusal>
    ensures { (t : Ty) → l ≡ value_of l.stride l.reference t → everywhere is_well_formed t ≡ true → said result ≡ allowed stored t bytes }
{
    if LIMIT < bytes {
        return Err(Refusal::Long);
    }
    // what has an alignment is open or has a size
    if l.align == 0 {
        return Err(Refusal::Absent);
    }
    if l.narrow != 0 {
        return Ok(());
    }
    if stored {
        return Err(Refusal::Unstorable);
    }
    Ok(())
}

// How many elements so many words fill, after the fixed part.
pub fn elements_for(words: usize, first: usize, unit: u32) -> Option<usize>
    requires { (0 < unit) × (first ≤ limit) }
    ensures { result ≡ elements_of words first unit }
{
    let each = unit as usize;
    if words < first + each {
        return None;
    }
    let n = (words - first) / each;
    if first + n * each == words {
        return Some(n);
    }
    None
}

// Where `n` elements end, if that is within so many bytes.
pub fn extent_for(bytes: usize, first: usize, stride: u32, n: usize) -> Option<usize>
    requires { 0 < stride }
    ensures { result ≡ extent_for bytes first stride n }
{
    let each = stride as usize;
    if bytes < first {
        return None;
    }
    if (bytes - first) / each < n {
        return None;
    }
    Some(first + n * each)
}

// How many whole elements so many bytes hold.
pub fn elements_in(bytes: usize, first: usize, stride: u32) -> Option<usize>
    requires { 0 < stride }
    ensures { result ≡ elements_found bytes first stride }
{
    if bytes < first {
        return None;
    }
    let n = (bytes - first) / stride as usize;
    if n == 0 {
        return None;
    }
    Some(n)
}

// What lies after the fixed part of an entry: parts as a value says, from a byte and from a word on.
#[derive(Clone, Copy, Debug, PartialEq, Eq)]
pub struct Rest {
    pub value: Value,
    pub offset: usize,
    pub fixed: usize,
}

// The runtime array that an open entry is or ends in.
pub fn rest_of(members: &[u8], table: &[Value], l: Value) -> Rest
    requires { Findable members.now table.now l }
    ensures { result ≡ rest_from members.now table.now l }
{
    if l.kind == RUNTIME {
        return Rest {
            value: l,
            offset: 0,
            fixed: 0,
        };
    }
    let p = member_in(members, table, l, l.count - 1);
    Rest {
        value: value_at(table, p.ty),
        offset: p.start,
        fixed: l.unit as usize,
    }
}

// A type of fixed size: nothing. Its value is a run of no words, so that walks pass it by without looking an entry up; and words of four
// bytes, so that none is tested.
pub fn closed_rest(l: Value) -> Rest
    requires { Counted l }
    ensures { result ≡ closed_rest l }
{
    Rest {
        value: Value {
            kind: 0,
            narrow: 4,
            reference: 0,
            count: 0,
            unit: 0,
            stride: 0,
            size: 0,
            align: 0,
        },
        offset: 0,
        fixed: l.words() as usize,
    }
}

// An open type: `n` elements.
#[tactic(auto, unfolding(crate::specs::Decide::open_rest, walk_trees::specs::Slot::with_count))]
pub fn open_rest(x: Rest, n: u32) -> Rest
    ensures { result ≡ open_rest x n }
{
    Rest {
        value: Value {
            count: n,
            ..x.value
        },
        ..x
    }
}
