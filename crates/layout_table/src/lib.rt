// The table of 256 values, worked out upward from entry 0.
#![tactic(auto)]

ghost use Rattle.std.specs.Prelude.{◌≡◌, List};
ghost use Rattle.wgsl.specs.Types.{Ty, struct_kind};
ghost use Rattle.wgsl.specs.Said.{good};
ghost use Rattle.wgsl.specs.File.{check_trailer};
ghost use Rattle.wgsl.specs.Rule.{struct_made, type_of_entry};
ghost use Rattle.file.specs.Fields.{trailer_is, entry_is};
ghost use Rattle.layout_values.specs.Value.{made_of, blank_table};
ghost use Rattle.layout_table.specs.Table.{table_of, said_table, accepted_trailer, said_checked, ground_in, said_ground, Upward};

use file::fields::{TYPE_ENTRY_LENGTH, TypeEntry, entry_at, member_at, member_length};
use file::kinds::{ABSTRACT_FLOAT, STRUCT, is_scalar};
use file::trailer::{Trailer, check_trailer};
use layout_referring::over_entry;
use layout_strays::lowest_stray;
use layout_structs::{finish, no_members, span_of, step};
use layout_values::scalars::{scalar_entry, zeros};
use layout_values::value::{Broken, Value, blank, value_at};
use numbers::wide::wide;
use said::refusal::Refusal;

// A struct's entry, number `k`, over the lower entries: its members one after the other.
#[tactic(auto, using(crate::proofs::Upward::members_inside, crate::proofs::Upward::members_past, crate::proofs::Upward::members_meet, crate::proofs::Upward::members_rule, crate::proofs::Upward::members_next, crate::proofs::Upward::members_made, layout_structs::proofs::Reached::reached_none))]
fn struct_entry(
    f: &[u8],
    e: TypeEntry,
    k: usize,
    base: usize,
    members: usize,
    long: u32,
    table: &[Value],
) -> Result<Value, Broken>
    requires { (e.kind ≡ struct_kind) × ((ts : List Ty) × Upward f.now k (entry_is e) base members long table.now ts) }
    ensures { (ts : List Ty) → Upward f.now k (entry_is e) base members long table.now ts → result ≡ made_of long e.reference (struct_made f.now ts k (entry_is e)) }
{
    let s = span_of(e, members);
    let count = s.count;
    let length = wide(long);
    let at = base + length * s.first;
    let mut past = no_members();
    for i in 0..count {
        let m = member_at(f, at + length * i);
        let ty = wide(m.ty);
        if k <= ty {
            return Err(Broken::Rule);
        }
        past = step(past, value_at(table, ty), m, i + 1 == count)?;
    }
    finish(e, past, count, long)
}

// Entry `k`, with the fields `e`, over the lower entries.
#[tactic(auto, using(crate::proofs::Judged::entry_used, crate::proofs::Judged::entry_scalar, crate::proofs::Judged::entry_struct, crate::proofs::Judged::entry_missing, crate::proofs::Judged::entry_over, layout_values::proofs::Unused::unused_two, wgsl::proofs::ScalarKind::low_scalar, layout_structs::proofs::MembersFrom::lower_past, layout_structs::proofs::MembersFrom::lower_found))]
fn entry_made(
    f: &[u8],
    e: TypeEntry,
    k: usize,
    base: usize,
    members: usize,
    long: u32,
    table: &[Value],
) -> Result<Value, Broken>
    requires { (ts : List Ty) × Upward f.now k (entry_is e) base members long table.now ts }
    ensures { (ts : List Ty) → Upward f.now k (entry_is e) base members long table.now ts → result ≡ made_of long e.reference (type_of_entry f.now ts k) }
{
    if !zeros(e.zero3, e.zero6, 0, 0) {
        return Err(Broken::Rule);
    }
    // the scalars of document 01, then structs, then the scalars of 64 bits: no test is added on a struct's way
    if e.kind <= ABSTRACT_FLOAT {
        return scalar_entry(e);
    }
    if e.kind == STRUCT {
        return struct_entry(f, e, k, base, members, long, table);
    }
    if is_scalar(e.kind) {
        return scalar_entry(e);
    }
    let r = wide(e.reference);
    if k <= r {
        return Err(Broken::Rule);
    }
    over_entry(e, value_at(table, r))
}

// The values of the entries of a file whose trailer is good, worked out before anything else is read or written, or the refusal.
// Refuses 5 to 7, 24.
pub fn fill(f: &[u8], t: Trailer, table: &mut [Value]) -> Result<Trailer, Refusal>
    requires { (check_trailer f.now ≡ good (trailer_is t)) × (table.old ≡ blank_table) }
    ensures { said_table result table.new ≡ table_of f.now }
{
    let types = wide(t.types);
    let members = wide(t.members);
    let start = wide(t.start);
    let base = start + TYPE_ENTRY_LENGTH * types;
    let long = member_length(t.form);
    for k in 0..types {
        let e = entry_at(f, start + TYPE_ENTRY_LENGTH * k);
        // a match: over map_err with a closure the proof did not close
        table[k] = match entry_made(f, e, k, base, members, long, table) {
            Ok(value) => value,
            Err(broken) => return Err(broken.at(k)),
        };
    }
    let stray = lowest_stray(f, start, types, members);
    if stray < members {
        return Err(Refusal::Stray(stray));
    }
    Ok(t)
}

// The trailer of an accepted file, or the refusal.
// Refuses 1 to 7, 24.
#[tactic(auto, using(crate::proofs::SaidTable::trailer_refused, crate::proofs::SaidTable::accepted_refused, crate::proofs::SaidTable::table_trailer))]
pub fn accept(f: &[u8]) -> Result<Trailer, Refusal>
    ensures { said_checked result ≡ accepted_trailer f.now }
{
    let trailer = check_trailer(f)?;
    let mut table = blank();
    fill(f, trailer, &mut table)
}

// The entry that a call speaks of: its value, and where the file's member entries begin and end.
#[derive(Clone, Copy)]
pub struct Ground {
    pub value: Value,
    pub start: usize,
    pub end: usize,
}

// Fills the table, and finds entry `entry` in it. Refuses 5 to 7, 24, 8.
#[tactic(auto, using(crate::proofs::SaidTable::table_told, crate::proofs::SaidTable::table_refused, crate::proofs::GroundIn::ground_refused, crate::proofs::GroundIn::ground_missing, crate::proofs::GroundIn::ground_is))]
pub fn find(f: &[u8], t: Trailer, entry: u32, table: &mut [Value]) -> Result<Ground, Refusal>
    requires { (check_trailer f.now ≡ good (trailer_is t)) × (table.old ≡ blank_table) }
    ensures { said_ground result table.new ≡ ground_in f.now entry }
{
    fill(f, t, table)?;
    if t.types <= entry {
        return Err(Refusal::Missing);
    }
    let start = wide(t.start) + TYPE_ENTRY_LENGTH * wide(t.types);
    let end = start + wide(member_length(t.form)) * wide(t.members);
    Ok(Ground {
        value: value_at(table, wide(entry)),
        start,
        end,
    })
}
