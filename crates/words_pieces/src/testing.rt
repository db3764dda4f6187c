// Testing by pieces: how many elements fit, by the largest of their words that go into two bytes.
ghost use Rattle.std.specs.Prelude.{◌≡◌, ◌⊎◌, ℕ, ◌+◌, ◌≤◌, length};
ghost use Rattle.wgsl.specs.Said.{good};
ghost use Rattle.wgsl.specs.Place.{repeated};
ghost use Rattle.runs.specs.Fold.{Tests};
ghost use Rattle.runs.specs.Run.{run_places};
ghost use Rattle.walk_pieces.specs.Piece.{pieces_places, PiecesRoom, EachPieces};

use runs::largest;
use walk_pieces::{Piece, Pieces, piece_at};

// The largest of `most` and of the words of a piece from word `k` on, if they go into two bytes.
fn largest_in(p: Piece, words: &[u32], k: usize, most: u32) -> u32
    requires { ((p.width ≡ 2) ⊎ (p.width ≡ 4)) × (k + p.words ≤ length words.now) }
    ensures { (most ≤ result) × (result ≤ 65535 → (at : ℕ) → Tests words.now (run_places p.words p.width at) k (good tt)) }
{
    if p.width == 2 {
        return largest(words, k, p.words, most);
    }
    most
}

// The largest of the words of two bytes of one element, from word `k` on.
fn largest_of(pieces: &Pieces, few: usize, words: &[u32], k: usize) -> u32
    requires { (unit : ℕ) × (at : ℕ) × (bytes : ℕ) × PiecesRoom few pieces.now unit at bytes k (length words.now) }
    ensures { result ≤ 65535 → (at : ℕ) → Tests words.now (pieces_places few pieces.now at) k (good tt) }
{
    let mut most: u32 = 0;
    let mut next = k;
    for j in 0..few {
        let p = piece_at(pieces, j);
        most = largest_in(p, words, next, most);
        next += p.words;
    }
    most
}

// How many of `count` elements, of `unit` words and `few` pieces each, fit before the first that does not, from word `k` on.
pub fn fitting(
    pieces: &Pieces,
    few: usize,
    count: usize,
    unit: usize,
    words: &[u32],
    k: usize,
) -> usize
    requires { (stride : ℕ) × (at : ℕ) × (bytes : ℕ) × EachPieces few pieces.now count unit stride at bytes k (length words.now) }
    ensures { (result ≤ count) × ((stride at : ℕ) → Tests words.now (repeated result stride (λ q. pieces_places few pieces.now q) at) k (good tt)) }
{
    for i in 0..count {
        if 65535 < largest_of(pieces, few, words, k + i * unit) {
            return i;
        }
    }
    count
}
