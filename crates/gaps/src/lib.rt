// `clean`: the gaps of an entry become zero, and what changed is counted. 02's order is 1 to 7, 24, 8, 17, 9, 10, 15.
#![tactic(auto)]

ghost use Rattle.std.specs.Prelude.{◌≡◌, false, ℕ, ◌≤◌, length};
ghost use Rattle.wgsl.specs.Types.{Ty, is_open};
ghost use Rattle.wgsl.specs.Place.{extent_of};
ghost use Rattle.wgsl.specs.Clean.{clean_call, clean_after};
ghost use Rattle.wgsl.specs.Round.{limit};
ghost use Rattle.said.specs.Answer.{said, gaps_of};
ghost use Rattle.walk_decide.specs.Whole.{Ready, Tailed, Whole};
ghost use Rattle.walk_decide.specs.Meant.{Meant};
ghost use Rattle.gaps.specs.Promise.{WholeCleaned, ClosedCleaned, OpenCleaned, MeantCleaned};

use file::trailer::check_trailer;
use gaps_sweep::gap::{Sweep, sweep_to};
use gaps_walk::{sweep_entry, sweep_many};
use layout_table::{Ground, find};
use layout_values::value::{Value, blank};
use said::answer::Gaps;
use said::refusal::Refusal;
use walk_decide::{Rest, allow, closed_rest, elements_in, open_rest, rest_of};
use walk_pieces::no_pieces;

// Sweeps an entry of so many bytes: the fixed part, then the tail, then up to the end.
fn clean_whole(
    members: &[u8],
    table: &[Value],
    e: usize,
    x: Rest,
    extent: usize,
    buf: &mut [u8],
) -> Gaps
    requires { ((t : Ty) × (n : ℕ) × Whole members.now table.now e x t n × (extent ≡ extent_of n t)) × (extent ≤ length buf.old) × (length buf.old ≤ limit) }
    ensures { WholeCleaned members.now table.now e x extent result buf.old buf.new }
{
    let s = Sweep {
        from: 0,
        changed: 0,
        first: extent,
    };
    let mut pieces = no_pieces();
    let fixed = sweep_entry(members, table, e, 0, buf, s, &mut pieces);
    let all = sweep_many(members, table, x.value, x.offset, buf, fixed, &mut pieces);
    let r = sweep_to(buf, all, extent);
    Gaps {
        changed: r.changed as u32,
        first: r.first as u32,
    }
}

// 15 for a type of fixed size.
fn clean_closed(
    members: &[u8],
    table: &[Value],
    e: usize,
    l: Value,
    buf: &mut [u8],
) -> Result<Gaps, Refusal>
    requires { ((t : Ty) × Ready members.now table.now e l t × (is_open t ≡ false)) × (length buf.old ≤ limit) }
    ensures { ClosedCleaned members.now table.now e l result buf.old buf.new }
{
    let extent = l.size as usize;
    if buf.len() < extent {
        return Err(Refusal::Buffer);
    }
    Ok(clean_whole(members, table, e, closed_rest(l), extent, buf))
}

// 15 for an open type.
fn clean_open(
    members: &[u8],
    table: &[Value],
    e: usize,
    l: Value,
    buf: &mut [u8],
) -> Result<Gaps, Refusal>
    requires { ((t : Ty) × Tailed members.now table.now e l t) × (length buf.old ≤ limit) }
    ensures { OpenCleaned members.now table.now e l result buf.old buf.new }
{
    let x = rest_of(members, table, l);
    let n = elements_in(buf.len(), x.offset, x.value.stride).ok_or(Refusal::Buffer)?;
    let extent = x.offset + n * x.value.stride as usize;
    Ok(clean_whole(members, table, e, open_rest(x, n as u32), extent, buf))
}

// 17, 9, 10, and then the rest.
fn clean_entry_at(
    file: &[u8],
    e: usize,
    g: Ground,
    table: &[Value],
    buf: &mut [u8],
) -> Result<Gaps, Refusal>
    requires { (t : Ty) × Meant file.now e g table.now t }
    ensures { MeantCleaned file.now e g table.now result buf.old buf.new }
{
    let l = g.value;
    allow(l, buf.len(), true)?;
    let members = &file[g.start..g.end];
    if l.opens() {
        return clean_open(members, table, e, l, buf);
    }
    clean_closed(members, table, e, l, buf)
}

// Every byte of entry `entry` in the buffer that no scalar covers becomes zero; answers how many bytes changed, and the offset of the first
// (the extent if none did). Bytes after the extent stay.
// Refuses 1 to 7, 24 (file), 8, 17, 9 (no layout), 10, 15.
pub fn clean(file: &[u8], entry: u32, buf: &mut [u8]) -> Result<Gaps, Refusal>
    ensures answer { said result ≡ gaps_of (clean_call file.now entry buf.old) }
    ensures buffer { buf.new ≡ clean_after buf.old (clean_call file.now entry buf.old) }
{
    let trailer = check_trailer(file)?;
    let mut table = blank();
    let found = find(file, trailer, entry, &mut table)?;
    clean_entry_at(file, entry as usize, found, &table, buf)
}
