// Reading words by the table: the walk (crates/walk) with a reader.
#![tactic(auto)]

ghost use Rattle.std.specs.Prelude.{◌≡◌, length};
ghost use Rattle.wgsl.specs.Place.{Shape, places_of};
ghost use Rattle.runs.specs.Fold.{Loads};
ghost use Rattle.walk_trees.specs.Tree.{Many, Tree, Room};

use layout_values::value::Value;
use runs::{Parts, read_few, read_parts};
use walk::{Visitor, visit_entry, visit_many};
use walk_pieces::Pieces;
use walk_trees::Series;
use words_pieces::reading::read_each;

// Puts what stands at the places into words.
#[derive(Drop)]
struct Read<'b, 'w> {
    buf: &'b [u8],
    words: &'w mut [u32],
}

impl<'b, 'w> Visitor for Read<'b, 'w> {
    ghost use Rattle.std.specs.Prelude.{length};
    ghost use Rattle.words_read.specs.ReadOff.{read_off};
    ghost use Rattle.words_read.specs.Laws.{read_laws};

    ghost passes = { read_off };

    ghost bytes = { λ s. length s.buf.now };

    ghost words = { λ s. length s.words.now };

    ghost laws = { read_laws };

    fn pass_few(&mut self, at: usize, k: usize, n: usize) {
        read_few(self.buf, at, n, self.words, k);
    }

    fn pass_parts(&mut self, at: usize, k: usize, p: Parts) {
        read_parts(self.buf, at, p, self.words, k);
    }

    fn pass_each(&mut self, at: usize, k: usize, pieces: &Pieces, few: usize, p: Series) {
        read_each(pieces, few, p, at, self.buf, k, self.words);
    }
}

// Reads entry `e`, which begins at byte `at`, into the words from `k` on.
pub fn read_entry(
    members: &[u8],
    table: &[Value],
    e: usize,
    at: usize,
    buf: &[u8],
    k: usize,
    words: &mut [u32],
    pieces: &mut Pieces,
)
    requires { (x : Shape) × Tree members.now table.now e x × Room x at (length buf.now) k (length words.old) }
    ensures filled { (x : Shape) → Tree members.now table.now e x → Loads buf.now (places_of x at) k words.old words.new }
{
    let mut reader = Read { buf, words };
    visit_entry(members, table, e, at, k, &mut reader, pieces);
}

// Reads parts as the value `r` says.
pub fn read_many(
    members: &[u8],
    table: &[Value],
    r: Value,
    at: usize,
    buf: &[u8],
    k: usize,
    words: &mut [u32],
    pieces: &mut Pieces,
)
    requires { (x : Shape) × Many members.now table.now r x × Room x at (length buf.now) k (length words.old) }
    ensures filled { (x : Shape) → Many members.now table.now r x → Loads buf.now (places_of x at) k words.old words.new }
{
    let mut reader = Read { buf, words };
    visit_many(members, table, r, at, k, &mut reader, pieces);
}
