// Asking for a member: its bytes, as a part of the site buffer or of the factory buffer.
ghost use Rattle.std.specs.Prelude.{◌≡◌, cond, List, ℕ, ◌-◌, ◌≤◌, length, take, drop};
ghost use Rattle.wgsl.specs.Call.{part_of, part_start};
ghost use Rattle.wgsl.specs.Site.{member_call, handed_from};
ghost use Rattle.said.specs.Target.{reached, after};
ghost use Rattle.said.specs.Answer.{said};

use crate::mask::bit;
use crate::spot::locate_in;
use said::refusal::Refusal;
use said::target::Target;

// Where member `k` lies, in buffers of so many bytes.
fn member_in(
    file: &[u8],
    entry: u32,
    k: u32,
    mask: u64,
    factory: usize,
    site: usize,
) -> Result<Target, Refusal>
    ensures { (a b : List ℕ) → length a ≡ factory → length b ≡ site → said result ≡ reached (member_call file.now entry k mask a b) }
{
    let spot = locate_in(file, entry, k, &[], mask, factory, site)?;
    Ok(spot.target)
}

// Where member `k` lies in its block: its offset, its bytes and its scalar.
// Refuses 1 to 7, 24, 8, 17, 9, 10, 21, 15 (either buffer), 11 (no such member, place 0).
pub fn member_at(
    file: &[u8],
    entry: u32,
    k: u32,
    mask: u64,
    factory: &[u8],
    site: &[u8],
) -> Result<Target, Refusal>
    ensures { said result ≡ reached (member_call file.now entry k mask factory.now site.now) }
{
    member_in(file, entry, k, mask, factory.len(), site.len())
}

// A part of the site buffer, or of the factory buffer.
fn part_of<'a>(factory: &'a [u8], site: &'a [u8], on: bool, from: usize, to: usize) -> &'a [u8]
    requires { (from ≤ to) × (to ≤ length factory.now) × (to ≤ length site.now) }
    ensures bytes { result.now ≡ take (to - from) (drop from (cond on site.now factory.now)) }
    ensures place { result.ref_ptr ≡ after (cond on site.entry.ref_ptr factory.entry.ref_ptr) from }
{
    if on {
        return &site[from..to];
    }
    &factory[from..to]
}

// The bytes of member `k`, as that part of the site buffer if its bit is set, else of the factory buffer; where `member_at` refuses, the
// empty start of the factory buffer.
pub fn member<'a>(
    file: &[u8],
    entry: u32,
    k: u32,
    mask: u64,
    factory: &'a [u8],
    site: &'a [u8],
) -> &'a [u8]
    ensures bytes { result.now ≡ part_of (member_call file.now entry k mask factory.now site.now) (handed_from (member_call file.now entry k mask factory.now site.now) mask k factory.now site.now) }
    ensures place { result.ref_ptr ≡ after (handed_from (member_call file.now entry k mask factory.now site.now) mask k factory.entry.ref_ptr site.entry.ref_ptr) (part_start (member_call file.now entry k mask factory.now site.now)) }
{
    // a match and no `?`: what is answered has no place for a refusal
    match member_in(file, entry, k, mask, factory.len(), site.len()) {
        Err(_) => &factory[0..0],
        Ok(t) => {
            let from = t.offset;
            let to = t.offset + t.size;
            part_of(factory, site, bit(mask, k), from, to)
        }
    }
}
