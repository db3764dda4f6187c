// Writing words by the table: the walk (crates/walk) with a writer.
#![tactic(auto)]

ghost use Rattle.std.specs.Prelude.{◌≡◌, length};
ghost use Rattle.wgsl.specs.Place.{Shape, places_of};
ghost use Rattle.runs.specs.Fold.{Stores};
ghost use Rattle.walk_trees.specs.Tree.{Many, Tree, Room};

use layout_values::value::Value;
use runs::{Parts, write_few, write_parts};
use walk::{Visitor, visit_entry, visit_many};
use walk_pieces::Pieces;
use walk_trees::Series;
use words_pieces::writing::write_each;

// Stores words at their places.
#[derive(Drop)]
struct Write<'w, 'b> {
    words: &'w [u32],
    buf: &'b mut [u8],
}

impl<'w, 'b> Visitor for Write<'w, 'b> {
    ghost use Rattle.std.specs.Prelude.{length};
    ghost use Rattle.words_write.specs.Written.{written};
    ghost use Rattle.words_write.specs.Laws.{write_laws};

    ghost passes = { written };

    ghost bytes = { λ s. length s.buf.now };

    ghost words = { λ s. length s.words.now };

    ghost laws = { write_laws };

    fn pass_few(&mut self, at: usize, k: usize, n: usize) {
        write_few(self.words, k, n, self.buf, at);
    }

    fn pass_parts(&mut self, at: usize, k: usize, p: Parts) {
        write_parts(self.words, k, p, self.buf, at);
    }

    fn pass_each(&mut self, at: usize, k: usize, pieces: &Pieces, few: usize, p: Series) {
        write_each(pieces, few, p, at, self.words, k, self.buf);
    }
}

// Writes entry `e`, which begins at byte `at`, from word `k` on.
pub fn write_entry(
    members: &[u8],
    table: &[Value],
    e: usize,
    at: usize,
    words: &[u32],
    k: usize,
    buf: &mut [u8],
    pieces: &mut Pieces,
)
    requires { (x : Shape) × Tree members.now table.now e x × Room x at (length buf.old) k (length words.now) }
    ensures written { (x : Shape) → Tree members.now table.now e x → Stores words.now (places_of x at) k buf.old buf.new }
{
    let mut writer = Write { words, buf };
    visit_entry(members, table, e, at, k, &mut writer, pieces);
}

// Writes parts as the value `r` says.
pub fn write_many(
    members: &[u8],
    table: &[Value],
    r: Value,
    at: usize,
    words: &[u32],
    k: usize,
    buf: &mut [u8],
    pieces: &mut Pieces,
)
    requires { (x : Shape) × Many members.now table.now r x × Room x at (length buf.old) k (length words.now) }
    ensures written { (x : Shape) → Many members.now table.now r x → Stores words.now (places_of x at) k buf.old buf.new }
{
    let mut writer = Write { words, buf };
    visit_many(members, table, r, at, k, &mut writer, pieces);
}
