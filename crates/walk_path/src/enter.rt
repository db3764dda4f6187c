// Entering a place by a step.
ghost use Rattle.std.specs.Prelude.{◌≡◌, List, ℕ, ◌*◌, ◌<◌, ◌≤◌, length};
ghost use Rattle.wgsl.specs.Round.{limit};
ghost use Rattle.wgsl.specs.Types.{Ty, runtime_kind};
ghost use Rattle.wgsl.specs.Place.{Shape};
ghost use Rattle.wgsl.specs.Path.{index, member};
ghost use Rattle.layout_values.specs.Value.{value_at};
ghost use Rattle.walk_path.specs.declared.enter.Stand.TheVariants.{Entry, Column};
ghost use Rattle.walk_path.specs.Step.{step_is, refusal_at};
ghost use Rattle.walk_path.specs.Way.{size_at, parts_at, Standing, Parted, Enters};
ghost use Rattle.said.specs.Target.{kind_in};

use crate::step::Step;
use file::kinds::{ATOMIC, MATRIX, RUNTIME, STRUCT, VECTOR, is_scalar};
use layout_values::value::{Value, value_at};
use said::refusal::Refusal;
use said::target::NO_SCALAR;
use walk_trees::member_in;

// Where a walk stands: at an entry, or at a matrix's column of so many rows over the entry of its scalar, since a column has no entry.
#[derive(Clone, Copy)]
pub enum Stand {
    Entry(usize),
    Column(u32, usize),
}

// A place, so many bytes after the one that a step was taken from, and of so many bytes.
#[derive(Clone, Copy)]
pub struct Inner {
    pub offset: usize,
    pub size: usize,
    pub stand: Stand,
}

// Why a step leads nowhere: no such member (11), an index not below the count (12), an index where there are no parts (13).
#[derive(Clone, Copy, Debug, PartialEq, Eq)]
pub enum NoStep {
    NoMember,
    PastEnd,
    NoIndex,
}

impl NoStep {
    // The refusal of the step at `position`.
    pub fn at(self, position: usize) -> Refusal
        ensures { result ≡ refusal_at self position }
    {
        match self {
            NoStep::NoMember => Refusal::NoMember(position),
            NoStep::PastEnd => Refusal::PastEnd(position),
            NoStep::NoIndex => Refusal::NoIndex(position),
        }
    }
}

// The bytes of entry `e`, which is no open struct. A runtime array has `n` elements.
#[tactic(auto, unfolding(crate::specs::Way::size_at))]
fn size_at(table: &[Value], n: usize, e: usize) -> usize
    requires { (e < length table.now) × ((value_at table.now e).kind ≡ runtime_kind → n * (value_at table.now e).stride ≤ limit) }
    ensures { result ≡ size_at table.now n e }
{
    let r = value_at(table, e);
    if r.kind == RUNTIME {
        return n * r.stride as usize;
    }
    r.size as usize
}

// Entry `e` as what a step leads to.
fn into_entry(table: &[Value], n: usize, e: usize, offset: usize) -> Inner
    requires { (e < length table.now) × ((value_at table.now e).kind ≡ runtime_kind → n * (value_at table.now e).stride ≤ limit) }
    ensures { result ≡ record { offset = offset; size = size_at table.now n e; stand = Entry e } }
{
    Inner {
        offset,
        size: size_at(table, n, e),
        stand: Stand::Entry(e),
    }
}

// A member step at entry `e`.
fn enter_member(
    members: &[u8],
    table: &[Value],
    n: usize,
    e: usize,
    number: u32,
) -> Result<Inner, NoStep>
    requires { (f : List ℕ) × (ts : List Ty) × (x : Shape) × Standing f ts members.now table.now n (Entry e) x }
    ensures { (f : List ℕ) (ts : List Ty) (x : Shape) → Standing f ts members.now table.now n (Entry e) x → Enters ts n result x (member number) }
{
    let r = value_at(table, e);
    if r.kind != STRUCT {
        return Err(NoStep::NoMember);
    }
    if r.count <= number {
        return Err(NoStep::NoMember);
    }
    let p = member_in(members, table, r, number);
    Ok(into_entry(table, n, p.ty, p.start))
}

// How many parts entry `e` has. A runtime array has `n` elements.
#[tactic(auto, unfolding(crate::specs::Way::parts_at))]
fn parts_at(table: &[Value], n: usize, e: usize) -> usize
    requires { e < length table.now }
    ensures { result ≡ parts_at table.now n e }
{
    let r = value_at(table, e);
    if r.kind == RUNTIME {
        return n;
    }
    r.count as usize
}

// A part that is there: a vector's scalar, a matrix's column, an array's element.
fn enter_part(table: &[Value], n: usize, e: usize, number: u32) -> Result<Inner, NoStep>
    requires { (f : List ℕ) × (ts : List Ty) × (ms : List ℕ) × (x : Shape) × Standing f ts ms table.now n (Entry e) x × Parted table.now n e number }
    ensures { (f : List ℕ) (ts : List Ty) (ms : List ℕ) (x : Shape) → Standing f ts ms table.now n (Entry e) x → Parted table.now n e number → Enters ts n result x (index number) }
{
    let r = value_at(table, e);
    let offset = number as usize * r.stride as usize;
    let below = r.reference as usize;
    if r.kind == MATRIX {
        return Ok(Inner {
            offset,
            size: r.unit as usize * value_at(table, below).size as usize,
            stand: Stand::Column(r.unit, below),
        });
    }
    Ok(into_entry(table, n, below, offset))
}

// An index step at entry `e`: vectors, matrices and arrays have parts.
fn enter_index(table: &[Value], n: usize, e: usize, number: u32) -> Result<Inner, NoStep>
    requires { (f : List ℕ) × (ts : List Ty) × (ms : List ℕ) × (x : Shape) × Standing f ts ms table.now n (Entry e) x }
    ensures { (f : List ℕ) (ts : List Ty) (ms : List ℕ) (x : Shape) → Standing f ts ms table.now n (Entry e) x → Enters ts n result x (index number) }
{
    let kind = value_at(table, e).kind;
    if kind < VECTOR {
        return Err(NoStep::NoIndex);
    }
    if RUNTIME < kind {
        return Err(NoStep::NoIndex);
    }
    if parts_at(table, n, e) <= number as usize {
        return Err(NoStep::PastEnd);
    }
    enter_part(table, n, e, number)
}

// An index step at a column of `count` rows over the scalar's entry `e`.
fn enter_column(table: &[Value], count: u32, e: usize, number: u32) -> Result<Inner, NoStep>
    requires { (f : List ℕ) × (ts : List Ty) × (ms : List ℕ) × (n : ℕ) × (x : Shape) × Standing f ts ms table.now n (Column count e) x }
    ensures { (f : List ℕ) (ts : List Ty) (ms : List ℕ) (n : ℕ) (x : Shape) → Standing f ts ms table.now n (Column count e) x → Enters ts n result x (index number) }
{
    if count <= number {
        return Err(NoStep::PastEnd);
    }
    let width = value_at(table, e).size as usize;
    Ok(Inner {
        offset: number as usize * width,
        size: width,
        stand: Stand::Entry(e),
    })
}

// What a step leads to from a place.
pub fn enter(members: &[u8], table: &[Value], n: usize, p: Stand, s: Step) -> Result<Inner, NoStep>
    requires { (f : List ℕ) × (ts : List Ty) × (x : Shape) × Standing f ts members.now table.now n p x }
    ensures { (f : List ℕ) (ts : List Ty) (x : Shape) → Standing f ts members.now table.now n p x → Enters ts n result x (step_is s) }
{
    match (p, s) {
        (Stand::Entry(e), Step::Member(number)) => enter_member(members, table, n, e, number),
        (Stand::Entry(e), Step::Index(number)) => enter_index(table, n, e, number),
        (Stand::Column(_, _), Step::Member(_)) => Err(NoStep::NoMember),
        (Stand::Column(count, e), Step::Index(number)) => enter_column(table, count, e, number),
    }
}

// The kind of the one scalar that a place is, or `NO_SCALAR`.
pub fn kind_in(table: &[Value], p: Stand) -> u32
    requires { (f : List ℕ) × (ts : List Ty) × (ms : List ℕ) × (n : ℕ) × (x : Shape) × Standing f ts ms table.now n p x }
    ensures { (f : List ℕ) (ts : List Ty) (ms : List ℕ) (n : ℕ) (x : Shape) → Standing f ts ms table.now n p x → result ≡ kind_in x }
{
    match p {
        Stand::Entry(e) => {
            let r = value_at(table, e);
            if is_scalar(r.kind) {
                return r.kind;
            }
            if r.kind == ATOMIC {
                return value_at(table, r.reference as usize).kind;
            }
            NO_SCALAR
        }
        Stand::Column(_, _) => NO_SCALAR,
    }
}
