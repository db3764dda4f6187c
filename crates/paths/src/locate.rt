// What a path leads to. Document 01's order is 1 to 7, 24, 8, 17, 9, for a set 10, then 15 and the first bad step.
ghost use Rattle.std.specs.Prelude.{◌≡◌, List, ℕ, ◌≤◌, length};
ghost use Rattle.wgsl.specs.Round.{limit};
ghost use Rattle.wgsl.specs.Types.{Ty};
ghost use Rattle.wgsl.specs.Call.{target_in, target_call};
ghost use Rattle.walk_decide.specs.Meant.{Meant};
ghost use Rattle.said.specs.Target.{reached};
ghost use Rattle.paths.specs.Locate.{held_of, Viewable, Opening};
ghost use Rattle.said.specs.Answer.{said};

use file::trailer::check_trailer;
use layout_table::{Ground, find};
use layout_values::value::{Value, blank};
use said::refusal::Refusal;
use said::target::Target;
use walk_decide::{Rest, allow, elements_in, rest_of};
use walk_path::enter::Stand;
use walk_path::walk::walk;

// What a buffer holds of an entry: the elements of its runtime array, 0 if it has none, and where the entry ends.
#[derive(Clone, Copy, Debug, PartialEq, Eq)]
pub struct Held {
    pub elements: usize,
    pub size: usize,
}

// 15 for an open type with the tail `x`: a buffer with no whole element.
fn held_open(x: Rest, bytes: usize) -> Option<Held>
    requires { (t : Ty) × Opening t x × (bytes ≤ limit) }
    ensures { (t : Ty) (b : List ℕ) → Opening t x → length b ≡ bytes → result ≡ held_of t b }
{
    let elements = elements_in(bytes, x.offset, x.value.stride)?;
    Some(Held {
        elements,
        size: x.offset + elements * x.value.stride as usize,
    })
}

// 15: for an entry of the value `l` and a buffer of so many bytes.
fn held_of(members: &[u8], table: &[Value], l: Value, bytes: usize) -> Option<Held>
    requires { (f : List ℕ) × (e : ℕ) × (t : Ty) × Viewable f members.now table.now e l t × (bytes ≤ limit) }
    ensures { (f : List ℕ) (e : ℕ) (t : Ty) (b : List ℕ) → Viewable f members.now table.now e l t → length b ≡ bytes → result ≡ held_of t b }
{
    if l.opens() {
        return held_open(rest_of(members, table, l), bytes);
    }
    let size = l.size as usize;
    if bytes < size {
        return None;
    }
    Some(Held { elements: 0, size })
}

// What lies under a path: 15, and then the first bad step.
fn target_in(
    members: &[u8],
    table: &[Value],
    e: usize,
    l: Value,
    path: &[u32],
    bytes: usize,
) -> Result<Target, Refusal>
    requires { (f : List ℕ) × (t : Ty) × Viewable f members.now table.now e l t × (bytes ≤ limit) }
    ensures { (f : List ℕ) (t : Ty) (b : List ℕ) → Viewable f members.now table.now e l t → length b ≡ bytes → said result ≡ reached (target_in t path.now b) }
{
    let held = held_of(members, table, l, bytes).ok_or(Refusal::Buffer)?;
    walk(
        members,
        table,
        held.elements,
        Stand::Entry(e),
        held.size,
        path,
        0,
        0,
    )
}

// 17, 9, 10, and then the rest.
fn target_at(
    file: &[u8],
    e: usize,
    g: Ground,
    table: &[Value],
    path: &[u32],
    bytes: usize,
    stored: bool,
) -> Result<Target, Refusal>
    requires { (t : Ty) × Meant file.now e g table.now t }
    ensures { (t : Ty) (b : List ℕ) → Meant file.now e g table.now t → length b ≡ bytes → said result ≡ reached (target_call stored file.now e path.now b) }
{
    let l = g.value;
    allow(l, bytes, stored)?;
    target_in(&file[g.start..g.end], table, e, l, path, bytes)
}

// What `path` leads to from entry `entry` in a buffer of so many bytes; `stored` says that the entry must be storable.
// Refuses 1 to 7, 24 (file), 8, 17, 9 (no layout), 10, 15, then 11 to 13 (the first bad step).
pub fn locate(
    file: &[u8],
    entry: u32,
    path: &[u32],
    bytes: usize,
    stored: bool,
) -> Result<Target, Refusal>
    ensures { (b : List ℕ) → length b ≡ bytes → said result ≡ reached (target_call stored file.now entry path.now b) }
{
    let trailer = check_trailer(file)?;
    let mut table = blank();
    let found = find(file, trailer, entry, &mut table)?;
    target_at(file, entry as usize, found, &table, path, bytes, stored)
}
