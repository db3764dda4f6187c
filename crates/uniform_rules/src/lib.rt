// The rules of the uniform profile for one type, by the table: where the members of a struct start, the stride of an array, no atomic.
#![tactic(auto)]

ghost use Rattle.std.specs.Prelude.{◌≡◌, ◌*◌, ◌≤◌};
ghost use Rattle.wgsl.specs.Round.{limit};
ghost use Rattle.uniform_rules.specs.Keeps.{is_raised, start_keeps, earliest_by, slots_keep, SlotsAll, keeps_by, KeepsAsk};

use file::kinds::{ARRAY, ATOMIC, STRUCT};
use layout_values::value::{Value, value_at};
use numbers::power::up_power;
use walk_trees::slot_after;

// What alignments, strides and sizes are raised to.
const UNIT: usize = 16;

// Whether a type of this kind is a struct or an array.
#[tactic(auto, unfolding(crate::specs::Keeps::is_raised))]
fn raised(kind: u32) -> bool
    ensures { result ≡ is_raised kind }
{
    ARRAY <= kind && kind <= STRUCT && kind != ATOMIC
}

// Whether a member of the value `l` may start at `start`. Every start is a multiple of the type's own alignment, a power of two, so for
// structs and arrays the unit alone is left to ask.
#[tactic(auto, unfolding(crate::specs::Keeps::start_keeps))]
fn start_keeps(l: Value, earliest: usize, start: usize) -> bool
    ensures { result ≡ start_keeps l earliest start }
{
    earliest <= start && (!raised(l.kind) || start % UNIT == 0)
}

// The earliest start of the members after one of the value `l`, which starts at `start`, where it may.
#[tactic(auto, unfolding(crate::specs::Keeps::earliest_by))]
fn earliest_by(l: Value, earliest: usize, start: usize) -> usize
    requires { (earliest ≤ start) × (start ≤ limit) }
    ensures { result ≡ earliest_by l earliest start }
{
    if l.kind != STRUCT {
        return earliest;
    }
    start + up_power(UNIT, l.size as usize)
}

// Whether the members of a struct of the value `l` start where they may.
fn members_keep(members: &[u8], table: &[Value], l: Value) -> bool
    requires { SlotsAll members.now table.now l.stride l.count (l.reference * l.stride) 0 }
    ensures { result ≡ slots_keep members.now table.now l.stride l.count (l.reference * l.stride) 0 0 }
{
    let length = l.stride as usize;
    let first = l.reference as usize * length;
    let mut end = 0;
    let mut earliest = 0;
    for i in 0..l.count as usize {
        let p = slot_after(members, table, first + length * i, end);
        let v = value_at(table, p.ty);
        if !start_keeps(v, earliest, p.start) {
            return false;
        }
        earliest = earliest_by(v, earliest, p.start);
        end = p.end;
    }
    true
}

// Whether a type of the value `l` keeps the rules itself; those within it are not looked at.
#[tactic(auto, unfolding(crate::specs::Keeps::keeps_by))]
pub fn keeps(members: &[u8], table: &[Value], l: Value) -> bool
    requires { KeepsAsk members.now table.now l }
    ensures { result ≡ keeps_by members.now table.now l }
{
    if l.kind == STRUCT {
        return members_keep(members, table, l);
    }
    if raised(l.kind) {
        return l.stride as usize % UNIT == 0;
    }
    l.kind != ATOMIC
}
