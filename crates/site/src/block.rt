// What a block is, and its entry found: 1 to 7, 24, 8, 17, 9, 10, 21.
ghost use Rattle.std.specs.Prelude.{◌≡◌, true, ◌≤◌, ◌^◌, ltb};
ghost use Rattle.wgsl.specs.Types.{Ty, everywhere};
ghost use Rattle.wgsl.specs.Rule.{is_well_formed};
ghost use Rattle.wgsl.specs.Site.{is_block};
ghost use Rattle.layout_values.specs.Value.{value_of, blank_table};
ghost use Rattle.layout_table.specs.Table.{said_ground};
ghost use Rattle.site.specs.Block.{block_allowed, block_ground};
ghost use Rattle.said.specs.Answer.{said};

use file::kinds::STRUCT;
use file::trailer::check_trailer;
use layout_table::{Ground, find};
use layout_values::value::Value;
use said::refusal::Refusal;
use walk_decide::allow;

// The most members that a block has.
const MOST_SETTINGS: u32 = 64;

// Whether a mask has bits of `count` members alone.
fn within(mask: u64, count: u32) -> bool
    requires { count ≤ 64 }
    ensures { result ≡ ltb mask (2 ^ count) }
{
    if count == MOST_SETTINGS {
        return true;
    }
    mask >> count == 0
}

// Whether an entry of the value `l` is a block with this mask.
pub fn is_block(l: Value, mask: u64) -> bool
    ensures { (t : Ty) → l ≡ value_of l.stride l.reference t → everywhere is_well_formed t ≡ true → result ≡ is_block mask t }
{
    if l.kind != STRUCT {
        return false;
    }
    if l.opens() {
        return false;
    }
    if MOST_SETTINGS < l.count {
        return false;
    }
    within(mask, l.count)
}

// 17, 9, 10 and 21, for an entry of the value `l`; `bytes` is the length of the longer buffer.
fn allow_block(l: Value, mask: u64, bytes: usize) -> Result<(), Refusal>
    ensures { (t : Ty) → l ≡ value_of l.stride l.reference t → everywhere is_well_formed t ≡ true → said result ≡ block_allowed mask t bytes }
{
    allow(l, bytes, true)?;
    if !is_block(l, mask) {
        return Err(Refusal::NoSite);
    }
    Ok(())
}

// Fills the table, and finds in it the block that entry `entry` is with this mask. Refuses 1 to 7, 24, 8, 17, 9, 10, 21.
pub fn find_block(
    file: &[u8],
    entry: u32,
    mask: u64,
    bytes: usize,
    table: &mut [Value],
) -> Result<Ground, Refusal>
    requires { table.old ≡ blank_table }
    ensures { said_ground result table.new ≡ block_ground file.now entry mask bytes }
{
    let trailer = check_trailer(file)?;
    let found = find(file, trailer, entry, table)?;
    allow_block(found.value, mask, bytes)?;
    Ok(found)
}
