// Testing words by the table, before any of them is stored: the lowest that an f16 cannot hold. Entry numbers fall. The list of pieces is lent
// down the walk, so that it is on the stack once.
#![tactic(auto)]

ghost use Rattle.std.specs.Prelude.{◌≡◌, ℕ, ◌≤◌, length};
ghost use Rattle.wgsl.specs.Said.{good};
ghost use Rattle.wgsl.specs.Round.{limit};
ghost use Rattle.wgsl.specs.Place.{Shape, parts, span_of, places_of};
ghost use Rattle.wgsl.specs.Types.{struct_kind};
ghost use Rattle.runs.specs.Fold.{Tests};
ghost use Rattle.layout_values.specs.Value.{value_at};
ghost use Rattle.walk_trees.specs.Tree.{Many, Tree, EachRoom, WordRoom};
ghost use Rattle.said.specs.Answer.{said};

use file::fields::half;
use file::kinds::STRUCT;
use layout_values::value::{Value, value_at};
use runs::scan_run;
use said::refusal::Refusal;
use walk_pieces::{MOST, Pieces, pieces_of};
use walk_trees::{Series, parts_of};
use words_pieces::testing::fitting;

// Tests the words of entry `e`, from word `k` on. Only what holds an f16 is looked at.
#[cycle(scan_entry_scan_many_scan_struct)]
pub fn scan_entry(
    members: &[u8],
    table: &[Value],
    e: usize,
    words: &[u32],
    k: usize,
    pieces: &mut Pieces,
) -> Result<(), Refusal>
    requires { (x : Shape) × Tree members.now table.now e x × WordRoom x k (length words.now) }
    ensures said { (x : Shape) → Tree members.now table.now e x → Tests words.now (places_of x 0) k (said result) }
{
    let r = value_at(table, e);
    if r.narrow != 2 {
        return Ok(());
    }
    if r.kind == STRUCT {
        return scan_struct(members, table, e, r, words, k, pieces);
    }
    scan_many(members, table, r, words, k, pieces)
}

// How many of the elements `p`, each the entry `e`, fit before the first that does not, by their pieces, where they are few.
fn fit_at_once(
    members: &[u8],
    table: &[Value],
    e: usize,
    p: Series,
    words: &[u32],
    k: usize,
    pieces: &mut Pieces,
) -> usize
    requires { (y : Shape) × (bytes : ℕ) × Tree members.now table.now e y × (span_of y ≤ limit) × EachRoom y p.count p.unit p.stride 0 bytes k (length words.now) }
    ensures { (result ≤ p.count) × ((y : Shape) → Tree members.now table.now e y → (stride : ℕ) → Tests words.now (places_of (parts result stride y) 0) k (good tt)) }
{
    let few = pieces_of(members, table, e, p.count, pieces);
    if few <= MOST {
        return fitting(pieces, few, p.count, p.unit, words, k);
    }
    0
}

// Tests parts as the value `r` says: runs at once; others each by its entry, from the first on that does not fit by its pieces.
#[cycle(scan_entry_scan_many_scan_struct)]
pub fn scan_many(
    members: &[u8],
    table: &[Value],
    r: Value,
    words: &[u32],
    k: usize,
    pieces: &mut Pieces,
) -> Result<(), Refusal>
    requires { (x : Shape) × Many members.now table.now r x × WordRoom x k (length words.now) }
    ensures said { (x : Shape) → Many members.now table.now r x → Tests words.now (places_of x 0) k (said result) }
{
    if r.narrow != 2 {
        return Ok(());
    }
    let p = parts_of(table, r);
    if p.width != 0 {
        return scan_run(words, k, p.count * p.unit, p.width);
    }
    let element = r.reference as usize;
    let elements = Series::from(r);
    let fit = fit_at_once(members, table, element, elements, words, k, pieces);
    for i in fit..elements.count {
        let next = k + i * elements.unit;
        scan_entry(members, table, element, words, next, pieces)?;
    }
    Ok(())
}

// Tests a struct member by member.
#[cycle(scan_entry_scan_many_scan_struct)]
fn scan_struct(
    members: &[u8],
    table: &[Value],
    e: usize,
    r: Value,
    words: &[u32],
    k: usize,
    pieces: &mut Pieces,
) -> Result<(), Refusal>
    requires { (x : Shape) × Tree members.now table.now e x × (r ≡ value_at table.now e) × (r.kind ≡ struct_kind) × WordRoom x k (length words.now) }
    ensures said { (x : Shape) → Tree members.now table.now e x → Tests words.now (places_of x 0) k (said result) }
{
    let length = r.stride as usize;
    let first = r.reference as usize * length;
    let mut next = k;
    for i in 0..r.count as usize {
        let ty = half(members, first + length * i) as usize;
        let l = value_at(table, ty);
        if l.narrow == 2 {
            scan_entry(members, table, ty, words, next, pieces)?;
        }
        next += l.words() as usize;
    }
    Ok(())
}
