// The gaps between pieces (crates/walk_pieces).
ghost use Rattle.std.specs.Prelude.{◌≡◌, ℕ, ◌+◌, ◌*◌, ◌≤◌, length};
ghost use Rattle.wgsl.specs.Place.{repeated};
ghost use Rattle.walk_pieces.specs.Piece.{pieces_places, PiecesRoom, EachPieces};
ghost use Rattle.gaps_sweep.specs.Sweep.{swept_of, Sweeps, Countable};

use crate::gap::Sweep;
use crate::parts::sweep_run;
use walk_pieces::{Pieces, piece_at};
use walk_trees::Series;

// The element that begins at `at`.
fn sweep_pieces(buf: &mut [u8], s: Sweep, at: usize, pieces: &Pieces, few: usize) -> Sweep
    requires { ((unit : ℕ) × (k : ℕ) × (words : ℕ) × PiecesRoom few pieces.now unit at (length buf.old) k words) × Countable (swept_of buf.old s) }
    ensures { Sweeps (pieces_places few pieces.now at) (swept_of buf.old s) (swept_of buf.new result) }
{
    let mut r = s;
    for j in 0..few {
        let p = piece_at(pieces, j);
        r = sweep_run(buf, r, at + p.start, p.words, p.width);
    }
    r
}

// The elements of `p`, of `few` pieces each.
#[tactic(auto, using(crate::proofs::Sweep::repeat_start, crate::proofs::Sweep::repeat_all))]
pub fn sweep_each(
    buf: &mut [u8],
    s: Sweep,
    at: usize,
    p: Series,
    pieces: &Pieces,
    few: usize,
) -> Sweep
    requires { ((k : ℕ) × (words : ℕ) × EachPieces few pieces.now p.count p.unit p.stride at (length buf.old) k words) × Countable (swept_of buf.old s) }
    ensures { Sweeps (repeated p.count p.stride (λ q. pieces_places few pieces.now q) at) (swept_of buf.old s) (swept_of buf.new result) }
{
    let mut r = s;
    for i in 0..p.count {
        r = sweep_pieces(buf, r, at + i * p.stride, pieces, few);
    }
    r
}
