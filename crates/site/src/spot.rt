// Where a member of a block lies, and what a path leads to in it: 15, 11 for the member, then the first bad step.
ghost use Rattle.std.specs.Prelude.{◌≡◌, List, ℕ, ◌+◌, ◌≤◌, max, length};
ghost use Rattle.wgsl.specs.Round.{limit};
ghost use Rattle.wgsl.specs.Types.{Ty};
ghost use Rattle.wgsl.specs.Place.{Shape, span_of};
ghost use Rattle.walk_path.specs.declared.enter.Stand.TheVariants.{Entry};
ghost use Rattle.walk_path.specs.Way.{Standing};
ghost use Rattle.site.specs.Block.{BlockAt};
ghost use Rattle.site.specs.Spot.{spot_from, spot_at, spot_call};
ghost use Rattle.said.specs.Answer.{said};

use crate::block::find_block;
use crate::buffers::both_have;
use layout_table::Ground;
use layout_values::value::{Value, blank};
use said::refusal::Refusal;
use said::target::Target;
use walk_path::enter::{Inner, Stand, enter};
use walk_path::step::Step;
use walk_path::walk::walk;

// A member of a block, where it begins and how many bytes it has, and what a path leads to in it.
#[derive(Clone, Copy, Debug, PartialEq, Eq)]
pub struct Spot {
    pub from: usize,
    pub size: usize,
    pub target: Target,
}

// What `path` leads to from the member `i`.
fn spot_from(members: &[u8], table: &[Value], i: Inner, path: &[u32]) -> Result<Spot, Refusal>
    requires { (f : List ℕ) × (ts : List Ty) × (y : Shape) × Standing f ts members.now table.now 0 i.stand y × (i.size ≡ span_of y) × (i.offset + span_of y ≤ limit) }
    ensures { (f : List ℕ) (ts : List Ty) (y : Shape) → Standing f ts members.now table.now 0 i.stand y → i.size ≡ span_of y → said result ≡ spot_from i.offset y path.now }
{
    let from = i.offset;
    let size = i.size;
    let stand = i.stand;
    let target = walk(members, table, 0, stand, size, path, 0, from)?;
    Ok(Spot { from, size, target })
}

// Member `k` of entry `e`, and what `path` leads to in it.
fn spot_at(members: &[u8], table: &[Value], e: usize, k: u32, path: &[u32]) -> Result<Spot, Refusal>
    requires { (f : List ℕ) × (ts : List Ty) × (x : Shape) × Standing f ts members.now table.now 0 (Entry e) x }
    ensures { (f : List ℕ) (ts : List Ty) (x : Shape) → Standing f ts members.now table.now 0 (Entry e) x → said result ≡ spot_at x k path.now }
{
    // a match, since the proof does not close over the closure of a `map_err`
    let inner = match enter(members, table, 0, Stand::Entry(e), Step::Member(k)) {
        Ok(inner) => inner,
        Err(step) => return Err(step.at(0)),
    };
    spot_from(members, table, inner, path)
}

// The same in the block that was found: 15 for either buffer, of which there are so many bytes, and then the rest.
fn spot_in(
    file: &[u8],
    e: usize,
    g: Ground,
    table: &[Value],
    k: u32,
    path: &[u32],
    factory: usize,
    site: usize,
) -> Result<Spot, Refusal>
    requires { (t : Ty) × (mask : ℕ) × BlockAt file.now e g table.now mask (max factory site) t }
    ensures { (t : Ty) (mask : ℕ) (a b : List ℕ) → BlockAt file.now e g table.now mask (max factory site) t → length a ≡ factory → length b ≡ site → said result ≡ spot_call file.now e k path.now mask a b }
{
    if !both_have(g.value.size as usize, factory, site) {
        return Err(Refusal::Buffer);
    }
    spot_at(&file[g.start..g.end], table, e, k, path)
}

// Member `k` of a block of entry `entry`, and what `path` leads to in it; the buffers have so many bytes.
// Refuses 1 to 7, 24, 8, 17, 9, 10, 21, 15, 11 (the member, place 0), 11 to 13 (the first bad step).
pub fn locate_in(
    file: &[u8],
    entry: u32,
    k: u32,
    path: &[u32],
    mask: u64,
    factory: usize,
    site: usize,
) -> Result<Spot, Refusal>
    ensures { (a b : List ℕ) → length a ≡ factory → length b ≡ site → said result ≡ spot_call file.now entry k path.now mask a b }
{
    let mut table = blank();
    let found = find_block(file, entry, mask, factory.max(site), &mut table)?;
    spot_in(file, entry as usize, found, &table, k, path, factory, site)
}
