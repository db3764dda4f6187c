// The lowest member that no struct names (02, E12): members are marked that a struct names, and the first is told that is not.
#![tactic(auto)]

pub mod marks;

ghost use Rattle.std.specs.Prelude.{◌≡◌, true, false, ◌&&◌, ◌||◌, ◌⊎◌, List, ℕ, ◌+◌, ◌*◌, ◌<◌, ◌≤◌, leb, ltb, length, get_or};
ghost use Rattle.wgsl.specs.Said.{refuse};
ghost use Rattle.wgsl.specs.File.{trailer_of};
ghost use Rattle.wgsl.specs.Rule.{names_member, is_named, all_named};
ghost use Rattle.file.specs.Fields.{entry_is};
ghost use Rattle.layout_strays.specs.Strays.{Entries, mark_at, Marks};

use crate::marks::{first_unmarked, mark};
use file::fields::{TYPE_ENTRY_LENGTH, TypeEntry, entry_at};
use file::kinds::STRUCT;
use numbers::wide::wide;

// Marks the members that the entry `e` names, of `members`.
fn mark_entry(named: &mut [u64], e: TypeEntry, members: usize)
    requires { (members ≤ 1024) × (length named.old ≡ 16) }
    ensures { (m : ℕ) → m < members → mark_at named.new m ≡ (mark_at named.old m || names_member (entry_is e) m) }
{
    if e.kind != STRUCT {
        return;
    }
    let from = wide(e.reference);
    let to = from + wide(e.count);
    mark(named, from, to.min(members))
}

// Marks the members that structs name.
fn mark_all(f: &[u8], start: usize, types: usize, members: usize, named: &mut [u64])
    requires { Entries f.now start types × (members ≤ 1024) × (length named.old ≡ 16) × Marks f.now 0 members named.old }
    ensures { Marks f.now types members named.new }
{
    for k in 0..types {
        mark_entry(named, entry_at(f, start + TYPE_ENTRY_LENGTH * k), members);
    }
}

// The lowest member that no struct names; if there is none, as many as there are members.
pub fn lowest_stray(f: &[u8], start: usize, types: usize, members: usize) -> usize
    requires { Entries f.now start types × (members ≤ 1024) }
    ensures { refuse 24 result (ltb result members) ≡ all_named f.now types members }
{
    let mut named = [0u64; 16];
    mark_all(f, start, types, members, &mut named);
    first_unmarked(&named, members)
}
