// Sweeping by the table: the walk (crates/walk) with a sweeper.
#![tactic(auto)]

ghost use Rattle.std.specs.Prelude.{◌≡◌, ℕ, length};
ghost use Rattle.wgsl.specs.Place.{Shape, places_of};
ghost use Rattle.walk_trees.specs.Tree.{Many, Tree, Room};
ghost use Rattle.gaps_sweep.specs.Sweep.{swept_of, Sweeps, Countable};

use gaps_sweep::gap::Sweep;
use gaps_sweep::parts::{sweep_parts, sweep_run};
use gaps_sweep::pieces::sweep_each;
use layout_values::value::{Value, value_at};
use runs::Parts;
use walk::{Visitor, visit_entry, visit_many};
use walk_pieces::Pieces;
use walk_trees::{Series, packed};

// Sweeps the gaps before the places.
#[derive(Drop)]
struct Sweeper<'b> {
    buf: &'b mut [u8],
    sweep: Sweep,
    ghost countable: { Countable (swept_of buf.now sweep) },
}

impl<'b> Visitor for Sweeper<'b> {
    ghost use Rattle.std.specs.Prelude.{length};
    ghost use Rattle.walk.specs.Visitor.{most_words};
    ghost use Rattle.gaps_walk.specs.SweptOver.{swept_over};
    ghost use Rattle.gaps_walk.specs.Laws.{sweeper_laws};

    ghost passes = { swept_over };

    ghost bytes = { λ s. length s.buf.now };

    // it reads none, so any number of them will do
    ghost words = { λ s. most_words };

    ghost laws = { sweeper_laws };

    fn pass_few(&mut self, at: usize, _k: usize, n: usize) {
        self.sweep = sweep_run(self.buf, self.sweep, at, n, 4);
    }

    fn pass_parts(&mut self, at: usize, _k: usize, p: Parts) {
        self.sweep = sweep_parts(self.buf, self.sweep, at, p);
    }

    fn pass_each(&mut self, at: usize, _k: usize, pieces: &Pieces, few: usize, p: Series) {
        self.sweep = sweep_each(self.buf, self.sweep, at, p, pieces, few);
    }
}

// Sweeps the gaps before the words of entry `e`, which begins at byte `at`. What has none is passed at once.
pub fn sweep_entry(
    members: &[u8],
    table: &[Value],
    e: usize,
    at: usize,
    buf: &mut [u8],
    s: Sweep,
    pieces: &mut Pieces,
) -> Sweep
    requires { ((x : Shape) × (k : ℕ) × (words : ℕ) × Tree members.now table.now e x × Room x at (length buf.old) k words) × Countable (swept_of buf.old s) }
    ensures { (x : Shape) → Tree members.now table.now e x → Sweeps (places_of x at) (swept_of buf.old s) (swept_of buf.new result) }
{
    let l = value_at(table, e);
    if packed(l) == 4 {
        return sweep_run(buf, s, at, l.words() as usize, 4);
    }
    let mut sweeper = Sweeper { buf, sweep: s };
    visit_entry(members, table, e, at, 0, &mut sweeper, pieces);
    sweeper.sweep
}

// The same of parts as the value `l` says.
pub fn sweep_many(
    members: &[u8],
    table: &[Value],
    l: Value,
    at: usize,
    buf: &mut [u8],
    s: Sweep,
    pieces: &mut Pieces,
) -> Sweep
    requires { ((x : Shape) × (k : ℕ) × (words : ℕ) × Many members.now table.now l x × Room x at (length buf.old) k words) × Countable (swept_of buf.old s) }
    ensures { (x : Shape) → Many members.now table.now l x → Sweeps (places_of x at) (swept_of buf.old s) (swept_of buf.new result) }
{
    let mut sweeper = Sweeper { buf, sweep: s };
    visit_many(members, table, l, at, 0, &mut sweeper, pieces);
    sweeper.sweep
}
