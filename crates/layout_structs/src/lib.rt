// A struct: its members one after the other.
#![tactic(auto)]

ghost use Rattle.std.specs.Prelude.{◌≡◌, ℕ, ◌≤◌, Err};
ghost use Rattle.wgsl.specs.Types.{Ty, Members, no_more, struct};
ghost use Rattle.wgsl.specs.Rule.{count_of};
ghost use Rattle.file.specs.Fields.{entry_is, member_is};
ghost use Rattle.layout_values.specs.Value.{verdict_on};
ghost use Rattle.layout_structs.specs.SoFar.{so_far, followed, Joins, Meets, stepped_to, Ended, Closes, Spans, struct_of};
ghost use Rattle.layout_values.specs.declared.value.Broken.TheVariants.{Rule};

use file::fields::{MemberEntry, TypeEntry};
use file::kinds::STRUCT;
use layout_members::{align_fits, given_align, given_size, is_allowed, rest_is_zero, size_fits};
use layout_values::scalars::zeros;
use layout_values::value::{Broken, Value};
use numbers::limit::round_up;
use numbers::wide::wide;

// Where the members so far end, and what they hold.
#[derive(Clone, Copy, Debug, PartialEq, Eq)]
pub struct Ends {
    // 0 past a runtime array, which has no end
    pub end: u32,
    pub align: u32,
    pub words: u32,
    pub opens: bool,
    pub narrow: u32,
}

// What the members so far come to, or why the struct has no value: "5 before 6 before 7", so that a member may still break 5 where one before it broke 6 or 7.
pub type SoFar = Result<Ends, Broken>;

// The members that a struct's entry names, by number.
#[derive(Clone, Copy, Debug, PartialEq, Eq)]
pub struct Span {
    pub first: usize,
    pub count: usize,
}

// One more member, whose size and align fit, after those that end as `p` says.
#[tactic(auto, using(crate::proofs::Joins::joins_power, crate::proofs::Joins::joins_past, crate::proofs::Joins::joins_open, crate::proofs::Joins::joins_end_past, crate::proofs::Joins::joins_closed, crate::proofs::Joins::joins_words, numbers::proofs::Limited::limited_some))]
fn join(p: Ends, l: Value, m: MemberEntry) -> SoFar
    requires { (ms : Members) × (t : Ty) × Joins p l (member_is m) ms t }
    ensures { (ms : Members) (t : Ty) → Joins p l (member_is m) ms t → result ≡ so_far (followed ms t (member_is m)) }
{
    let align = given_align(m, l.align);
    let size = given_size(m, l.size);
    let start = round_up(align, p.end).ok_or(Broken::Large)?;
    let most = p.align.max(align);
    let narrow = p.narrow.min(l.narrow);
    if l.opens() {
        return Ok(Ends {
            end: 0,
            align: most,
            words: p.words,
            opens: true,
            narrow,
        });
    }
    let end = start.checked_add(size).ok_or(Broken::Large)?;
    Ok(Ends {
        end,
        align: most,
        words: p.words + l.words(),
        opens: false,
        narrow,
    })
}

// Before the first member.
#[tactic(auto, using(crate::proofs::Reached::no_members))]
pub fn no_members() -> SoFar
    ensures { result ≡ so_far no_more }
{
    Ok(Ends {
        end: 0,
        align: 1,
        words: 0,
        opens: false,
        narrow: 4,
    })
}

// One more member.
#[tactic(auto, using(crate::proofs::Meets::steps_rest, crate::proofs::Meets::steps_not_allowed, crate::proofs::Meets::steps_next, crate::proofs::Meets::steps_size, crate::proofs::Meets::steps_align, crate::proofs::Meets::steps_joins, crate::proofs::Meets::steps_past))]
pub fn step(past: SoFar, l: Value, m: MemberEntry, last: bool) -> Result<SoFar, Broken>
    requires { (ms : Members) × (t : Ty) × Meets past l ms t }
    ensures { (ms : Members) (t : Ty) → Meets past l ms t → result ≡ stepped_to last ms t (member_is m) }
{
    if !rest_is_zero(m) {
        return Err(Broken::Rule);
    }
    if !is_allowed(l, last) {
        return Err(Broken::Rule);
    }
    if !size_fits(m, l) {
        return Ok(Err(Broken::Given));
    }
    if !align_fits(m, l) {
        return Ok(Err(Broken::Given));
    }
    match past {
        Ok(p) => Ok(join(p, l, m)),
        Err(broken) => Ok(Err(broken)),
    }
}

// A struct's value. Its stride is how long its member entries are.
#[tactic(auto, unfolding(crate::specs::SoFar::struct_of))]
fn struct_of(e: TypeEntry, p: Ends, size: u32, long: u32) -> Value
    ensures { result ≡ struct_of long (entry_is e) p size }
{
    Value {
        kind: STRUCT,
        narrow: p.narrow,
        reference: e.reference,
        count: e.count,
        unit: p.words,
        stride: long,
        size,
        align: p.align,
    }
}

#[tactic(auto, using(crate::proofs::Ended::ended_power, crate::proofs::Ended::ended_opens, crate::proofs::Ended::ended_closes, crate::proofs::Ended::ended_past))]
// The struct with the entry `e` whose members end as `p` says.
fn whole(e: TypeEntry, p: Ends, long: u32) -> Result<Value, Broken>
    requires { (ms : Members) × Ended p ms }
    ensures { (k : ℕ) (ms : Members) → Ended p ms → count_of ms ≡ e.count → result ≡ verdict_on long e.reference (struct k ms) }
{
    if p.opens {
        return Ok(struct_of(e, p, 0, long));
    }
    let size = round_up(p.align, p.end).ok_or(Broken::Large)?;
    Ok(struct_of(e, p, size, long))
}

#[tactic(auto, using(crate::proofs::Ended::closes_placed, crate::proofs::Ended::closes_past))]
// Past the last of `count` members, whose entries are so long: a struct has one at least.
pub fn finish(e: TypeEntry, past: SoFar, count: usize, long: u32) -> Result<Value, Broken>
    requires { 1 ≤ count → (ms : Members) × Closes past ms }
    ensures none { count ≡ 0 → result ≡ Err Rule }
    ensures all { 1 ≤ count → (k : ℕ) (ms : Members) → Closes past ms → count_of ms ≡ e.count → result ≡ verdict_on long e.reference (struct k ms) }
{
    if count < 1 {
        return Err(Broken::Rule);
    }
    let p = past?;
    whole(e, p, long)
}

#[tactic(auto, using(crate::proofs::StructMade::struct_used, crate::proofs::StructMade::struct_past, crate::proofs::StructMade::struct_empty, layout_values::proofs::Unused::denied, layout_values::proofs::Unused::granted))]
// "12 struct: reference = first member, count = members, 1 to 1,024, all within M": those members; or none, where the
// entry is no struct's or names others.
pub fn span_of(e: TypeEntry, members: usize) -> Span
    ensures { Spans members (entry_is e) result.first result.count }
{
    if e.kind != STRUCT {
        return Span { first: 0, count: 0 };
    }
    if !zeros(e.columns, e.rows, 0, 0) {
        return Span { first: 0, count: 0 };
    }
    let first = wide(e.reference);
    let count = wide(e.count);
    if members < first + count {
        return Span { first: 0, count: 0 };
    }
    Span { first, count }
}
