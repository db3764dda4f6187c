// The two starts of a block: inheriting, with no member's bit, and fresh, a copy of the factory buffer with every member's.
ghost use Rattle.std.specs.Prelude.{◌≡◌, ◌++◌, ◌≤◌, length, take, drop};
ghost use Rattle.wgsl.specs.Site.{inheriting_call, fresh_call, zero_of, mask_after, site_answer, site_after, mask_set};
ghost use Rattle.said.specs.Answer.{said};

use crate::block::find_block;
use crate::buffers::both_have;
use crate::mask::mark_all;
use layout_values::value::blank;
use puts::put;
use said::refusal::Refusal;

// The mask of an inheriting block, 0; the answer is 0.
// Refuses 1 to 7, 24, 8, 9, 10, 21.
pub fn inheriting(file: &[u8], entry: u32, mask: &mut u64) -> Result<u32, Refusal>
    ensures answer { said result ≡ zero_of (inheriting_call file.now entry) }
    ensures mask { mask.new ≡ mask_after mask.old (inheriting_call file.now entry) }
{
    let mut table = blank();
    find_block(file, entry, 0, 0, &mut table)?;
    *mask = 0;
    Ok(0)
}

// Copies the first `size` bytes; later bytes of the site buffer stay.
fn copy_first(size: usize, factory: &[u8], site: &mut [u8])
    requires { (size ≤ length factory.now) × (size ≤ length site.old) }
    ensures { site.new ≡ take size factory.now ++ drop size site.old }
{
    put(site, 0, &factory[0..size]);
}

// A fresh block: the factory buffer's bytes, as many as the entry's size, copied into the site buffer, and every member's bit into the mask,
// whatever it held; the answer is 0.
// Refuses 1 to 7, 24, 8, 17, 9, 10, 21, 15 (either buffer), before anything is copied.
pub fn fresh(
    file: &[u8],
    entry: u32,
    factory: &[u8],
    site: &mut [u8],
    mask: &mut u64,
) -> Result<u32, Refusal>
    ensures answer { said result ≡ site_answer (fresh_call file.now entry factory.now site.old) }
    ensures site { site.new ≡ site_after site.old (fresh_call file.now entry factory.now site.old) }
    ensures mask { mask.new ≡ mask_set mask.old (fresh_call file.now entry factory.now site.old) }
{
    let mut table = blank();
    let bytes = factory.len().max(site.len());
    let found = find_block(file, entry, 0, bytes, &mut table)?;
    let size = found.value.size as usize;
    if !both_have(size, factory.len(), site.len()) {
        return Err(Refusal::Buffer);
    }
    copy_first(size, factory, site);
    mark_all(mask, found.value.count);
    Ok(0)
}
