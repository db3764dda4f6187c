// A member cleared: no buffer is looked at.
ghost use Rattle.std.specs.Prelude.{◌≡◌, List, ℕ};
ghost use Rattle.wgsl.specs.Types.{Ty};
ghost use Rattle.wgsl.specs.Place.{Shape, shape_of};
ghost use Rattle.wgsl.specs.Site.{clear_call, zero_of, mask_after};
ghost use Rattle.walk_path.specs.declared.enter.Stand.TheVariants.{Entry};
ghost use Rattle.walk_path.specs.Way.{Standing};
ghost use Rattle.site.specs.Block.{BlockAt};
ghost use Rattle.site.specs.Clear.{there_in, can_clear};
ghost use Rattle.said.specs.Answer.{said};

use crate::block::find_block;
use crate::mask::without_bit;
use layout_table::Ground;
use layout_values::value::{Value, blank};
use said::refusal::Refusal;
use walk_path::enter::{Stand, enter};
use walk_path::step::Step;

// 11, with place 0, for a member that entry `e` has not.
fn member_there(members: &[u8], table: &[Value], e: usize, k: u32) -> Result<(), Refusal>
    requires { (f : List ℕ) × (ts : List Ty) × (x : Shape) × Standing f ts members.now table.now 0 (Entry e) x }
    ensures { (f : List ℕ) (ts : List Ty) (x : Shape) → Standing f ts members.now table.now 0 (Entry e) x → said result ≡ there_in x k }
{
    // a match, since the proof does not close over the closure of a `map_err`
    match enter(members, table, 0, Stand::Entry(e), Step::Member(k)) {
        Ok(_) => Ok(()),
        Err(step) => Err(step.at(0)),
    }
}

// The same in the block that was found.
fn there_in(file: &[u8], e: usize, g: Ground, table: &[Value], k: u32) -> Result<(), Refusal>
    requires { (t : Ty) × (mask : ℕ) × (bytes : ℕ) × BlockAt file.now e g table.now mask bytes t }
    ensures { (t : Ty) (mask bytes : ℕ) → BlockAt file.now e g table.now mask bytes t → said result ≡ there_in (shape_of 0 t) k }
{
    member_there(&file[g.start..g.end], table, e, k)
}

// Whether member `k` of a block can be cleared.
// Refuses 1 to 7, 24, 8, 9, 10, 21, 11 (no such member, place 0).
fn can_clear(file: &[u8], entry: u32, k: u32, mask: u64) -> Result<(), Refusal>
    ensures { said result ≡ can_clear file.now entry k mask }
{
    let mut table = blank();
    let found = find_block(file, entry, mask, 0, &mut table)?;
    there_in(file, entry as usize, found, &table, k)
}

// Drops the bit of member `k`, which shows the factory's bytes again; the answer is 0.
// Refuses 1 to 7, 24, 8, 9, 10, 21, 11 (no such member, place 0).
pub fn clear(file: &[u8], entry: u32, k: u32, mask: &mut u64) -> Result<u32, Refusal>
    ensures answer { said result ≡ zero_of (clear_call file.now entry k mask.old) }
    ensures mask { mask.new ≡ mask_after mask.old (clear_call file.now entry k mask.old) }
{
    let m = *mask;
    can_clear(file, entry, k, m)?;
    *mask = without_bit(m, k);
    Ok(0)
}
