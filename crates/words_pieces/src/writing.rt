// Writing by pieces.
ghost use Rattle.std.specs.Prelude.{◌≡◌, ℕ, length};
ghost use Rattle.wgsl.specs.Place.{repeated};
ghost use Rattle.runs.specs.Fold.{Stores};
ghost use Rattle.walk_pieces.specs.Piece.{pieces_places, PiecesRoom, EachPieces};

use runs::write_run;
use walk_pieces::{Pieces, piece_at};
use walk_trees::Series;

// Writes the element that begins at `at`, from word `k` on.
fn write_pieces(pieces: &Pieces, few: usize, at: usize, words: &[u32], k: usize, buf: &mut [u8])
    requires { (unit : ℕ) × PiecesRoom few pieces.now unit at (length buf.old) k (length words.now) }
    ensures { Stores words.now (pieces_places few pieces.now at) k buf.old buf.new }
{
    let mut next = k;
    for j in 0..few {
        let p = piece_at(pieces, j);
        write_run(words, next, p.words, p.width, buf, at + p.start);
        next += p.words;
    }
}

// Writes the elements of `p`, of `few` pieces each.
pub fn write_each(
    pieces: &Pieces,
    few: usize,
    p: Series,
    at: usize,
    words: &[u32],
    k: usize,
    buf: &mut [u8],
)
    requires { EachPieces few pieces.now p.count p.unit p.stride at (length buf.old) k (length words.now) }
    ensures { Stores words.now (repeated p.count p.stride (λ q. pieces_places few pieces.now q) at) k buf.old buf.new }
{
    for i in 0..p.count {
        write_pieces(pieces, few, at + i * p.stride, words, k + i * p.unit, buf);
    }
}
