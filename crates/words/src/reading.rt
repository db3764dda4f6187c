// `read`: document 01's order is 1 to 7, 24, 8, 17, 9, 10, 15, 14.
ghost use Rattle.std.specs.Prelude.{◌≡◌, false, ℕ, ◌≤◌, length};
ghost use Rattle.wgsl.specs.Types.{Ty, is_open};
ghost use Rattle.wgsl.specs.Place.{extent_of, word_count};
ghost use Rattle.wgsl.specs.Call.{answer_of, contents_of, read_call};
ghost use Rattle.wgsl.specs.Round.{limit};
ghost use Rattle.walk_decide.specs.Whole.{Ready, Tailed, TailedBy, Whole};
ghost use Rattle.walk_decide.specs.Meant.{Meant};
ghost use Rattle.words.specs.Promise.{WholeLoaded, ClosedRead, ElementsRead, OpenRead, MeantRead};
ghost use Rattle.said.specs.Answer.{said};

use file::trailer::check_trailer;
use layout_table::{Ground, find};
use layout_values::value::{Value, blank};
use said::refusal::Refusal;
use walk_decide::{Rest, allow, closed_rest, elements_in, open_rest, rest_of};
use walk_pieces::no_pieces;
use words_read::{read_entry, read_many};

// Puts the words of an entry down: the fixed part, then the tail.
fn load(members: &[u8], table: &[Value], e: usize, x: Rest, buf: &[u8], words: &mut [u32])
    requires { (t : Ty) × (n : ℕ) × Whole members.now table.now e x t n × (word_count n t ≤ length words.old) × (extent_of n t ≤ length buf.now) }
    ensures { WholeLoaded members.now table.now e x buf.now words.old words.new }
{
    let mut pieces = no_pieces();
    read_entry(members, table, e, 0, buf, 0, words, &mut pieces);
    read_many(
        members,
        table,
        x.value,
        x.offset,
        buf,
        x.fixed,
        words,
        &mut pieces,
    );
}

// 15 and 14 for a type of fixed size.
fn read_closed(
    members: &[u8],
    table: &[Value],
    e: usize,
    l: Value,
    buf: &[u8],
    words: &mut [u32],
) -> Result<u32, Refusal>
    requires { (t : Ty) × Ready members.now table.now e l t × (is_open t ≡ false) }
    ensures { ClosedRead members.now table.now e l buf.now result words.old words.new }
{
    if buf.len() < l.size as usize {
        return Err(Refusal::Buffer);
    }
    if words.len() < l.words() as usize {
        return Err(Refusal::Count);
    }
    load(members, table, e, closed_rest(l), buf, words);
    Ok(l.words())
}

// 14 for an open type with `n` elements.
fn read_elements(
    members: &[u8],
    table: &[Value],
    e: usize,
    x: Rest,
    n: usize,
    buf: &[u8],
    words: &mut [u32],
) -> Result<u32, Refusal>
    requires { (t : Ty) × TailedBy members.now table.now e x t × (extent_of n t ≤ length buf.now) × (length buf.now ≤ limit) }
    ensures { ElementsRead members.now table.now e x n buf.now result words.old words.new }
{
    let count = x.fixed + n * x.value.unit as usize;
    if words.len() < count {
        return Err(Refusal::Count);
    }
    load(members, table, e, open_rest(x, n as u32), buf, words);
    Ok(count as u32)
}

// 15 and 14 for an open type.
fn read_open(
    members: &[u8],
    table: &[Value],
    e: usize,
    l: Value,
    buf: &[u8],
    words: &mut [u32],
) -> Result<u32, Refusal>
    requires { (t : Ty) × Tailed members.now table.now e l t × (length buf.now ≤ limit) }
    ensures { OpenRead members.now table.now e l buf.now result words.old words.new }
{
    let x = rest_of(members, table, l);
    let n = elements_in(buf.len(), x.offset, x.value.stride).ok_or(Refusal::Buffer)?;
    read_elements(members, table, e, x, n, buf, words)
}

// 17, 9, 10, and then the rest.
fn read_entry_at(
    file: &[u8],
    e: usize,
    g: Ground,
    table: &[Value],
    buf: &[u8],
    words: &mut [u32],
) -> Result<u32, Refusal>
    requires { (t : Ty) × Meant file.now e g table.now t }
    ensures { MeantRead file.now e g table.now buf.now result words.old words.new }
{
    let l = g.value;
    allow(l, buf.len(), true)?;
    let members = &file[g.start..g.end];
    if l.opens() {
        return read_open(members, table, e, l, buf, words);
    }
    read_closed(members, table, e, l, buf, words)
}

// Reads the words of entry `entry` from the buffer's first bytes; answers their number. Later words stay.
// Refuses 1 to 7, 24 (file), 8, 17, 9 (no layout), 10, 15, 14.
pub fn read(file: &[u8], entry: u32, buf: &[u8], words: &mut [u32]) -> Result<u32, Refusal>
    ensures answer { said result ≡ answer_of (read_call file.now entry buf.now words.old) }
    ensures words { words.new ≡ contents_of words.old (read_call file.now entry buf.now words.old) }
{
    let trailer = check_trailer(file)?;
    let mut table = blank();
    let found = find(file, trailer, entry, &mut table)?;
    read_entry_at(file, entry as usize, found, &table, buf, words)
}
