// `write`: document 01's order is 1 to 7, 24, 8, 17, 9, 10, 14, 15, 16.
ghost use Rattle.std.specs.Prelude.{◌≡◌, false, ◌++◌, ℕ, ◌+◌, ◌≤◌, length, drop, replicate};
ghost use Rattle.wgsl.specs.Types.{Ty, is_open};
ghost use Rattle.wgsl.specs.Place.{extent_of, word_count};
ghost use Rattle.wgsl.specs.Call.{answer_of, contents_of, write_call};
ghost use Rattle.wgsl.specs.Round.{limit};
ghost use Rattle.walk_trees.specs.Slot.{run_at};
ghost use Rattle.walk_decide.specs.Whole.{Ready, Tailed, TailedBy, Whole};
ghost use Rattle.walk_decide.specs.Meant.{Meant};
ghost use Rattle.words.specs.Promise.{Tested, WholeStored, WholeWritten, ClosedWritten, ElementsWritten, OpenWritten, MeantWritten};
ghost use Rattle.said.specs.Answer.{said};

use file::trailer::check_trailer;
use layout_table::{Ground, find};
use layout_values::value::{Value, blank};
use runs::write_run;
use said::refusal::Refusal;
use walk_decide::{Rest, allow, closed_rest, elements_for, extent_for, open_rest, rest_of};
use walk_pieces::{Pieces, no_pieces};
use walk_trees::run_at;
use words_test::{scan_entry, scan_many};
use words_write::{write_entry, write_many};

// "zero where no scalar lies": the first `n` bytes.
fn zero(buf: &mut [u8], n: usize)
    requires { n ≤ length buf.old }
    ensures { buf.new ≡ replicate n 0 ++ drop n buf.old }
{
    buf[..n].fill(0);
}

// Tests the words of an entry: the fixed part, then the tail.
fn scan(
    members: &[u8],
    table: &[Value],
    e: usize,
    x: Rest,
    words: &[u32],
    pieces: &mut Pieces,
) -> Result<(), Refusal>
    requires { (t : Ty) × (n : ℕ) × Whole members.now table.now e x t n × (length words.now ≡ word_count n t) }
    ensures { Tested members.now table.now e x words.now (said result) }
{
    scan_entry(members, table, e, words, 0, pieces)?;
    scan_many(members, table, x.value, words, x.fixed, pieces)
}

// Stores the words of an entry of so many bytes: at once where they cover it; else over zeros, the fixed part, then the tail.
fn store(
    members: &[u8],
    table: &[Value],
    e: usize,
    x: Rest,
    extent: usize,
    words: &[u32],
    buf: &mut [u8],
    pieces: &mut Pieces,
)
    requires { (t : Ty) × (n : ℕ) × Whole members.now table.now e x t n × (length words.now ≡ word_count n t) × (extent ≡ extent_of n t) × (extent ≤ length buf.old) }
    ensures { WholeStored members.now table.now e x extent words.now buf.old buf.new }
{
    let width = run_at(table, e);
    if width != 0 {
        write_run(words, 0, words.len(), width as usize, buf, 0);
        return;
    }
    zero(buf, extent);
    write_entry(members, table, e, 0, words, 0, buf, pieces);
    write_many(
        members, table, x.value, x.offset, words, x.fixed, buf, pieces,
    );
}

// The words are right in number, and the bytes are there.
fn write_whole(
    members: &[u8],
    table: &[Value],
    e: usize,
    x: Rest,
    extent: u32,
    words: &[u32],
    buf: &mut [u8],
) -> Result<u32, Refusal>
    requires { (t : Ty) × (n : ℕ) × Whole members.now table.now e x t n × (length words.now ≡ word_count n t) × (extent ≡ extent_of n t) × (extent ≤ length buf.old) }
    ensures { WholeWritten members.now table.now e x extent words.now result buf.old buf.new }
{
    let mut pieces = no_pieces();
    scan(members, table, e, x, words, &mut pieces)?;
    let bytes = extent as usize;
    store(members, table, e, x, bytes, words, buf, &mut pieces);
    Ok(extent)
}

// 14, 15, 16 for a type of fixed size.
fn write_closed(
    members: &[u8],
    table: &[Value],
    e: usize,
    l: Value,
    words: &[u32],
    buf: &mut [u8],
) -> Result<u32, Refusal>
    requires { (t : Ty) × Ready members.now table.now e l t × (is_open t ≡ false) }
    ensures { ClosedWritten members.now table.now e l words.now result buf.old buf.new }
{
    if words.len() != l.words() as usize {
        return Err(Refusal::Count);
    }
    if buf.len() < l.size as usize {
        return Err(Refusal::Buffer);
    }
    write_whole(members, table, e, closed_rest(l), l.size, words, buf)
}

// 15 and 16 for an open type with `n` elements.
fn write_elements(
    members: &[u8],
    table: &[Value],
    e: usize,
    x: Rest,
    n: usize,
    words: &[u32],
    buf: &mut [u8],
) -> Result<u32, Refusal>
    requires { (t : Ty) × TailedBy members.now table.now e x t × (length buf.old ≤ limit) × (length words.now ≡ word_count n t) }
    ensures { ElementsWritten members.now table.now e x n words.now result buf.old buf.new }
{
    let extent = extent_for(buf.len(), x.offset, x.value.stride, n).ok_or(Refusal::Buffer)?;
    write_whole(
        members,
        table,
        e,
        open_rest(x, n as u32),
        extent as u32,
        words,
        buf,
    )
}

// 14, 15, 16 for an open type.
fn write_open(
    members: &[u8],
    table: &[Value],
    e: usize,
    l: Value,
    words: &[u32],
    buf: &mut [u8],
) -> Result<u32, Refusal>
    requires { (t : Ty) × Tailed members.now table.now e l t × (length buf.old ≤ limit) }
    ensures { OpenWritten members.now table.now e l words.now result buf.old buf.new }
{
    let x = rest_of(members, table, l);
    let n = elements_for(words.len(), x.fixed, x.value.unit).ok_or(Refusal::Count)?;
    write_elements(members, table, e, x, n, words, buf)
}

// 17, 9, 10, and then the rest.
fn write_entry_at(
    file: &[u8],
    e: usize,
    g: Ground,
    table: &[Value],
    words: &[u32],
    buf: &mut [u8],
) -> Result<u32, Refusal>
    requires { (t : Ty) × Meant file.now e g table.now t }
    ensures { MeantWritten file.now e g table.now words.now result buf.old buf.new }
{
    let l = g.value;
    allow(l, buf.len(), true)?;
    let members = &file[g.start..g.end];
    if l.opens() {
        return write_open(members, table, e, l, words, buf);
    }
    write_closed(members, table, e, l, words, buf)
}

// Writes the words of entry `entry`, each at its place, and zero where none lies; answers the byte count.
// Refuses 1 to 7, 24 (file), 8, 17, 9 (no layout), 10, 14, 15, 16.
pub fn write(file: &[u8], entry: u32, words: &[u32], buf: &mut [u8]) -> Result<u32, Refusal>
    ensures answer { said result ≡ answer_of (write_call file.now entry words.now buf.old) }
    ensures buffer { buf.new ≡ contents_of buf.old (write_call file.now entry words.now buf.old) }
{
    let trailer = check_trailer(file)?;
    let mut table = blank();
    let found = find(file, trailer, entry, &mut table)?;
    write_entry_at(file, entry as usize, found, &table, words, buf)
}
