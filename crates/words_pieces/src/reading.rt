// Reading by pieces.
ghost use Rattle.std.specs.Prelude.{◌≡◌, ℕ, length};
ghost use Rattle.wgsl.specs.Place.{repeated};
ghost use Rattle.runs.specs.Fold.{Loads};
ghost use Rattle.walk_pieces.specs.Piece.{pieces_places, PiecesRoom, EachPieces};

use runs::read_run;
use walk_pieces::{Pieces, piece_at};
use walk_trees::Series;

// Reads the element that begins at `at`, into the words from `k` on.
fn read_pieces(pieces: &Pieces, few: usize, at: usize, buf: &[u8], k: usize, words: &mut [u32])
    requires { (unit : ℕ) × PiecesRoom few pieces.now unit at (length buf.now) k (length words.old) }
    ensures { Loads buf.now (pieces_places few pieces.now at) k words.old words.new }
{
    let mut next = k;
    for j in 0..few {
        let p = piece_at(pieces, j);
        read_run(buf, at + p.start, p.words, p.width, words, next);
        next += p.words;
    }
}

// Reads the elements of `p`, of `few` pieces each.
pub fn read_each(
    pieces: &Pieces,
    few: usize,
    p: Series,
    at: usize,
    buf: &[u8],
    k: usize,
    words: &mut [u32],
)
    requires { EachPieces few pieces.now p.count p.unit p.stride at (length buf.now) k (length words.old) }
    ensures { Loads buf.now (repeated p.count p.stride (λ q. pieces_places few pieces.now q) at) k words.old words.new }
{
    for i in 0..p.count {
        read_pieces(pieces, few, at + i * p.stride, buf, k + i * p.unit, words);
    }
}
