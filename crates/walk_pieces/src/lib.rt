// Pieces: the runs that a type's words lie in, worked out once for all elements of an array. Those that touch are joined, so that a piece may
// go through several members, structs and arrays. Entry numbers fall.
#![tactic(auto)]

ghost use Rattle.std.specs.Prelude.{◌≡◌, true, ℕ, ◌+◌, ◌*◌, ◌<◌, ◌≤◌, length};
ghost use Rattle.wgsl.specs.Place.{Shape, places_of, span_of};
ghost use Rattle.wgsl.specs.Round.{limit};
ghost use Rattle.wgsl.specs.Types.{struct_kind};
ghost use Rattle.runs.specs.Run.{run_places, part_places};
ghost use Rattle.layout_values.specs.Value.{value_at};
ghost use Rattle.walk_trees.specs.Tree.{Many, Tree};
ghost use Rattle.walk_pieces.specs.Piece.{piece_of, most_pieces, Asks, Touching, Gathered, Pieced, WordsAsk, PartsAsk, PiecesAsk};

use file::kinds::STRUCT;
use layout_values::value::{Value, value_at};
use runs::Parts;
use walk_trees::{parts_of, slot_after};

// So many pieces at most.
pub const MOST: usize = 32;

// A list of them, three numbers each. By its own type, which is a pointer where it is lent, and a slice is two numbers in memory.
pub type Pieces = [u32; 96];

// The list before any is found.
pub fn no_pieces() -> Pieces
    ensures { 96 ≡ length result }
{
    [0u32; 96]
}

// A piece: where it begins in its type, how many words it has, and the bytes of each.
#[derive(Clone, Copy)]
pub struct Piece {
    pub start: usize,
    pub words: usize,
    pub width: usize,
}

// Piece `j`.
pub fn piece_at(pieces: &Pieces, j: usize) -> Piece
    requires { j < most_pieces }
    ensures { result ≡ piece_of pieces.now j }
{
    Piece {
        start: pieces[3 * j] as usize,
        words: pieces[3 * j + 1] as usize,
        width: pieces[3 * j + 2] as usize,
    }
}

// Whether a run that begins at `at`, of words of `width` bytes, touches the last of `k` pieces, which has such words too.
fn touches(pieces: &Pieces, k: usize, at: usize, width: u32) -> bool
    requires { Asks k pieces.now at }
    ensures { result ≡ true → Touching k pieces.now at width }
{
    if k == 0 {
        return false;
    }
    let last = 3 * (k - 1);
    if pieces[last + 2] != width {
        return false;
    }
    pieces[last] as usize + pieces[last + 1] as usize * width as usize == at
}

// Adds a run of `n` words of `width` bytes each, from byte `at` on, to `k` pieces; answers how many there are then, more than `MOST` where
// it was one too many.
fn add_run(pieces: &mut Pieces, k: usize, at: usize, n: usize, width: u32) -> usize
    requires { WordsAsk k pieces.old at n width }
    ensures { Gathered k pieces.old (λ q. run_places n width (q + at)) (at + n * width) result pieces.new }
{
    if touches(pieces, k, at, width) {
        pieces[3 * (k - 1) + 1] += n as u32;
        return k;
    }
    if k == MOST {
        return k + 1;
    }
    pieces[3 * k] = at as u32;
    pieces[3 * k + 1] = n as u32;
    pieces[3 * k + 2] = width;
    k + 1
}

// The same of parts: one run where they touch.
fn add_parts(pieces: &mut Pieces, k: usize, at: usize, p: Parts) -> usize
    requires { PartsAsk k pieces.old at p }
    ensures { Gathered k pieces.old (λ q. part_places p.count p.unit p.width p.stride (q + at)) (at + p.count * p.stride) result pieces.new }
{
    let width = p.width as u32;
    if p.stride == p.unit * p.width {
        return add_run(pieces, k, at, p.count * p.unit, width);
    }
    let mut few = k;
    for i in 0..p.count {
        if MOST < few {
            return few;
        }
        few = add_run(pieces, few, at + i * p.stride, p.unit, width);
    }
    few
}

// Adds the pieces of entry `e`, which begins at byte `at`, to `k` pieces; answers how many there are then, more than `MOST` where there were
// too many.
#[cycle(add_entry_add_many_add_struct)]
fn add_entry(
    members: &[u8],
    table: &[Value],
    e: usize,
    at: usize,
    pieces: &mut Pieces,
    k: usize,
) -> usize
    requires { (x : Shape) × Tree members.now table.now e x × PiecesAsk k pieces.old at x }
    ensures { (x : Shape) → Tree members.now table.now e x → Gathered k pieces.old (λ q. places_of x (q + at)) (at + span_of x) result pieces.new }
{
    let r = value_at(table, e);
    if r.kind == STRUCT {
        return add_struct(members, table, e, r, at, pieces, k);
    }
    add_many(members, table, r, at, pieces, k)
}

// The same of parts as the value `r` says: runs at once, others each by its entry.
#[cycle(add_entry_add_many_add_struct)]
fn add_many(
    members: &[u8],
    table: &[Value],
    r: Value,
    at: usize,
    pieces: &mut Pieces,
    k: usize,
) -> usize
    requires { (x : Shape) × Many members.now table.now r x × PiecesAsk k pieces.old at x }
    ensures { (x : Shape) → Many members.now table.now r x → Gathered k pieces.old (λ q. places_of x (q + at)) (at + span_of x) result pieces.new }
{
    let p = parts_of(table, r);
    if p.width != 0 {
        return add_parts(pieces, k, at, p);
    }
    let stride = r.stride as usize;
    let element = r.reference as usize;
    let mut few = k;
    for i in 0..r.count as usize {
        if MOST < few {
            return few;
        }
        few = add_entry(members, table, element, at + i * stride, pieces, few);
    }
    few
}

// The same of a struct, member by member.
#[cycle(add_entry_add_many_add_struct)]
fn add_struct(
    members: &[u8],
    table: &[Value],
    e: usize,
    r: Value,
    at: usize,
    pieces: &mut Pieces,
    k: usize,
) -> usize
    requires { (x : Shape) × Tree members.now table.now e x × (r ≡ value_at table.now e) × (r.kind ≡ struct_kind) × PiecesAsk k pieces.old at x }
    ensures { (x : Shape) → Tree members.now table.now e x → Gathered k pieces.old (λ q. places_of x (q + at)) (at + span_of x) result pieces.new }
{
    let length = r.stride as usize;
    let first = r.reference as usize * length;
    let mut end = 0;
    let mut few = k;
    for i in 0..r.count as usize {
        if MOST < few {
            return few;
        }
        let p = slot_after(members, table, first + length * i, end);
        few = add_entry(members, table, p.ty, at + p.start, pieces, few);
        end = p.end;
    }
    few
}

// The pieces of entry `e`, into `pieces`; answers how many. More than `MOST` where there are too many, or where there are too few elements
// of the entry for its pieces to be worth finding.
pub fn pieces_of(
    members: &[u8],
    table: &[Value],
    e: usize,
    elements: usize,
    pieces: &mut Pieces,
) -> usize
    requires { (x : Shape) × Tree members.now table.now e x × (span_of x ≤ limit) }
    ensures { result ≤ most_pieces → (x : Shape) → Tree members.now table.now e x → Pieced x result pieces.new }
{
    if elements < 4 {
        return MOST + 1;
    }
    add_entry(members, table, e, 0, pieces, 0)
}
