// Walking a type's words by the table: where a struct's members lie, and which words lie one after the other.
#![tactic(auto)]

ghost use Rattle.std.specs.Prelude.{◌≡◌, List, ℕ, ◌+◌, ◌*◌, ◌<◌, ◌≤◌, length};
ghost use Rattle.wgsl.specs.Place.{Shape, parts};
ghost use Rattle.wgsl.specs.Round.{IsPower, up, limit};
ghost use Rattle.walk_trees.specs.Slot.{packed_as, part_width, touching, run_at, Counted, Referring, RunAsks, series_of, slot_at, SlotAsks, slot_in, SlotsAsk};
ghost use Rattle.walk_trees.specs.Tree.{Many, RunsOf};

use file::fields::member_at;
use file::kinds::{ARRAY, RUNTIME, STRUCT};
use layout_members::{given_align, given_size};
use layout_values::value::{Value, value_at};
use numbers::power::up_power;
use runs::Parts;

// Where a member lies in its struct.
#[derive(Clone, Copy)]
pub struct Slot {
    pub ty: usize,
    pub start: usize,
    pub end: usize,
    pub words: usize,
}

// Elements of an array: `count` of them, of `unit` words each, a `stride` from one to the next.
#[derive(Clone, Copy)]
pub struct Series {
    pub count: usize,
    pub unit: usize,
    pub stride: usize,
}

// The elements that an array's value says.
impl From<Value> for Series {
    ghost from_gives = { λ l result. result ≡ series_of l };

    fn from(l: Value) -> Series {
        Series {
            count: l.count as usize,
            unit: l.unit as usize,
            stride: l.stride as usize,
        }
    }
}

// The width of a type's words, where they fill its size, one after the other; else 0.
#[tactic(auto, unfolding(crate::specs::Slot::packed_as))]
pub fn packed(l: Value) -> u32
    requires { Counted l }
    ensures { result ≡ packed_as l }
{
    if l.size == 0 {
        return 0;
    }
    touch(l.size, l.words(), l.narrow)
}

// The same of the words of each part of an entry that is no struct.
#[tactic(auto, unfolding(crate::specs::Slot::part_width))]
fn part_width(table: &[Value], l: Value) -> u32
    requires { Referring table.now l }
    ensures { result ≡ part_width table.now l }
{
    if l.kind < ARRAY {
        return l.narrow;
    }
    if RUNTIME < l.kind {
        return l.narrow;
    }
    packed(value_at(table, l.reference as usize))
}

// The width of words in parts that touch each other; else 0.
#[tactic(auto, unfolding(crate::specs::Slot::touching))]
fn touch(stride: u32, words: u32, width: u32) -> u32
    ensures { result ≡ touching stride words width }
{
    if stride as usize == words as usize * width as usize {
        return width;
    }
    0
}

// The same of the words of entry `e`, whatever the number of its elements where it is a runtime array.
#[tactic(auto, unfolding(crate::specs::Slot::run_at))]
pub fn run_at(table: &[Value], e: usize) -> u32
    requires { RunAsks table.now e }
    ensures { result ≡ run_at table.now e }
{
    let l = value_at(table, e);
    if l.kind == RUNTIME {
        return touch(l.stride, l.unit, part_width(table, l));
    }
    packed(l)
}

// No parts.
fn no_parts() -> Parts
    ensures { result.width ≡ 0 }
{
    Parts {
        count: 0,
        unit: 0,
        width: 0,
        stride: 0,
    }
}

// The parts of an entry whose elements have the value `x`, no struct, as one row: where these are runs and fill the `stride` of `l`, so that
// the columns of matrices in an array touch each other as those of one do. Else no parts.
fn row_of(table: &[Value], l: Value, x: Value) -> Parts
    requires { (ms : List ℕ) × (y : Shape) × Many ms table.now x y }
    ensures { (result.width ≡ 0 → ⊥) → (ms : List ℕ) (y : Shape) → Many ms table.now x y → RunsOf result (parts l.count l.stride y) }
{
    let count = x.count as usize;
    let stride = x.stride as usize;
    if l.stride as usize != count * stride {
        return no_parts();
    }
    Parts {
        count: l.count as usize * count,
        unit: x.unit as usize,
        width: part_width(table, x) as usize,
        stride,
    }
}

// The parts of an entry with the value `l`, no struct, as runs: its own, or those of its elements as one row. Else no parts, and of these
// the width is 0.
pub fn parts_of(table: &[Value], l: Value) -> Parts
    requires { (ms : List ℕ) × (x : Shape) × Many ms table.now l x }
    ensures runs { (result.width ≡ 0 → ⊥) → (ms : List ℕ) (x : Shape) → Many ms table.now l x → RunsOf result x }
    ensures none { result.width ≡ 0 → part_width table.now l ≡ 0 }
{
    let width = part_width(table, l);
    if width != 0 {
        return Parts {
            count: l.count as usize,
            unit: l.unit as usize,
            width: width as usize,
            stride: l.stride as usize,
        };
    }
    let x = value_at(table, l.reference as usize);
    if x.kind == STRUCT {
        return no_parts();
    }
    row_of(table, l, x)
}

// A member of this alignment and size, where the one before it ended at `end`.
fn put_after(ty: usize, align: u32, size: u32, words: u32, end: usize) -> Slot
    requires { IsPower align × (up align end ≤ limit) }
    ensures { result ≡ record { ty = ty; start = up align end; end = up align end + size; words = words } }
{
    let start = up_power(align as usize, end);
    Slot {
        ty,
        start,
        end: start + size as usize,
        words: words as usize,
    }
}

// Member `m`, where the one before it ended at `end`. Most members are given neither size nor align: those go first.
pub fn slot_after(members: &[u8], table: &[Value], m: usize, end: usize) -> Slot
    requires { SlotAsks members.now table.now m end }
    ensures { result ≡ slot_at members.now table.now m end }
{
    let e = member_at(members, m);
    let ty = e.ty as usize;
    let r = value_at(table, ty);
    let words = r.words();
    if e.flags == 0 {
        return put_after(ty, r.align, r.size, words, end);
    }
    put_after(
        ty,
        given_align(e, r.align),
        given_size(e, r.size),
        words,
        end,
    )
}

// Member `number` of a struct with the value `l`. Structs may share member entries, so a member's place is worked out in its own struct,
// from the first member on.
pub fn member_in(members: &[u8], table: &[Value], l: Value, number: u32) -> Slot
    requires { SlotsAsk members.now table.now l.stride (l.reference * l.stride) 0 number }
    ensures { result ≡ slot_in members.now table.now l.stride (l.reference * l.stride) 0 number }
{
    let length = l.stride as usize;
    let first = l.reference as usize * length;
    let mut end = 0;
    for i in 0..number as usize {
        end = slot_after(members, table, first + length * i, end).end;
    }
    slot_after(members, table, first + length * number as usize, end)
}
