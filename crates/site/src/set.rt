// Setting a scalar in a member: every refusal is decided before a byte is copied and a bit is set.
ghost use Rattle.std.specs.Prelude.{◌≡◌, cond, ◌+◌, ◌≤◌, length, take, drop};
ghost use Rattle.std.proofs.lemmas.List.Edits.{sets};
ghost use Rattle.wgsl.specs.Path as path;
ghost use Rattle.wgsl.specs.Call.{set_target};
ghost use Rattle.wgsl.specs.Site.{site_set_call, site_answer, site_after, mask_set};
ghost use Rattle.said.specs.Answer.{said, Answered};
ghost use Rattle.paths.specs.Set.{InBuffer};
ghost use Rattle.site.specs.Set.{brought_in};

use crate::mask::{bit, with_bit};
use crate::spot::{Spot, locate_in};
use paths::set::{fit_scalar, set_scalar};
use puts::put;
use said::refusal::Refusal;

// Brings a member's bytes from the factory buffer, unless it was set on site.
fn bring(on: bool, from: usize, size: usize, factory: &[u8], site: &mut [u8])
    requires { (from + size ≤ length factory.now) × (from + size ≤ length site.old) }
    ensures { site.new ≡ brought_in on from size factory.now site.old }
{
    if on {
        return;
    }
    put(site, from, &factory[from..from + size]);
}

// 14, 16; then the member's bytes, unless it was set on site, and the words in its scalar.
fn store_in(
    s: Spot,
    on: bool,
    words: &[u32],
    factory: &[u8],
    site: &mut [u8],
) -> Result<u32, Refusal>
    requires { (s.from + s.size ≤ length factory.now) × (s.from + s.size ≤ length site.old) × ((u : path.Target) × InBuffer s.target u (length site.old)) }
    ensures { (u : path.Target) → InBuffer s.target u (length site.old) → Answered (set_target u words.now (brought_in on s.from s.size factory.now site.old)) result site.old site.new }
{
    let target = s.target;
    fit_scalar(target, words)?;
    bring(on, s.from, s.size, factory, site);
    set_scalar(target, words, site)
}

// Stores `words` in the one scalar that `path` leads to from member `k`, in the site buffer, and sets the member's bit; where it was clear,
// the member's bytes are first copied from the factory buffer. The answer is the scalar's offset.
// Refuses 1 to 7, 24, 8, 17, 9, 10, 21, 15 (either buffer), 11 (no such member, place 0), 11 to 13 (the first bad step), 14, 16.
pub fn set(
    file: &[u8],
    entry: u32,
    k: u32,
    path: &[u32],
    words: &[u32],
    factory: &[u8],
    site: &mut [u8],
    mask: &mut u64,
) -> Result<u32, Refusal>
    ensures answer { said result ≡ site_answer (site_set_call file.now entry k path.now words.now mask.old factory.now site.old) }
    ensures site { site.new ≡ site_after site.old (site_set_call file.now entry k path.now words.now mask.old factory.now site.old) }
    ensures mask { mask.new ≡ mask_set mask.old (site_set_call file.now entry k path.now words.now mask.old factory.now site.old) }
{
    let m = *mask;
    let spot = locate_in(file, entry, k, path, m, factory.len(), site.len())?;
    let at = store_in(spot, bit(m, k), words, factory, site)?;
    *mask = with_bit(m, k);
    Ok(at)
}
