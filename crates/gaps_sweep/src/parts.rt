// The gaps between words that lie in runs and parts (crates/runs).
ghost use Rattle.std.specs.Prelude.{◌≡◌, ℕ, ◌+◌, ◌*◌, ◌≤◌, length};
ghost use Rattle.runs.specs.Run.{run_places, part_places};
ghost use Rattle.runs.specs.Ask.{PartsRoom};
ghost use Rattle.gaps_sweep.specs.Sweep.{swept_of, Sweeps, Countable};

use crate::gap::{Sweep, pass};
use runs::Parts;

// `n` words of `width` bytes, one after the other from `at` on.
#[tactic(auto, using(crate::proofs::Sweep::run_none, crate::proofs::Sweep::run_passed))]
pub fn sweep_run(buf: &mut [u8], s: Sweep, at: usize, n: usize, width: usize) -> Sweep
    requires { (at + n * width ≤ length buf.old) × Countable (swept_of buf.old s) }
    ensures { Sweeps (run_places n width at) (swept_of buf.old s) (swept_of buf.new result) }
{
    if n == 0 {
        return s;
    }
    pass(buf, s, at, n * width)
}

// Parts from byte `at` on: one run where they touch.
#[tactic(auto, using(crate::proofs::Sweep::repeat_start))]
pub fn sweep_parts(buf: &mut [u8], s: Sweep, at: usize, p: Parts) -> Sweep
    requires { ((k : ℕ) × (words : ℕ) × PartsRoom p at (length buf.old) k words) × Countable (swept_of buf.old s) }
    ensures { Sweeps (part_places p.count p.unit p.width p.stride at) (swept_of buf.old s) (swept_of buf.new result) }
{
    if p.stride == p.unit * p.width {
        return sweep_run(buf, s, at, p.count * p.unit, p.width);
    }
    let mut r = s;
    for i in 0..p.count {
        r = sweep_run(buf, r, at + i * p.stride, p.unit, p.width);
    }
    r
}
