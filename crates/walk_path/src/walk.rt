// Walking a path.
ghost use Rattle.std.specs.Prelude.{◌≡◌, List, ℕ, ◌+◌, ◌≤◌, length};
ghost use Rattle.wgsl.specs.Round.{limit};
ghost use Rattle.wgsl.specs.Types.{Ty};
ghost use Rattle.wgsl.specs.Place.{Shape, span_of};
ghost use Rattle.walk_path.specs.Way.{Standing, Walks};

use crate::enter::{Stand, enter, kind_in};
use crate::step::Step;
use layout_values::value::Value;
use said::refusal::Refusal;
use said::target::Target;

// The steps from number `k` on, from a place that lies at `offset` and has `size` bytes. An open type has `n` elements.
pub fn walk(
    members: &[u8],
    table: &[Value],
    n: usize,
    p: Stand,
    size: usize,
    path: &[u32],
    k: usize,
    offset: usize,
) -> Result<Target, Refusal>
    requires { (f : List ℕ) × (ts : List Ty) × (x : Shape) × Standing f ts members.now table.now n p x × (size ≡ span_of x) × (offset + span_of x ≤ limit) × (k ≤ length path.now) }
    ensures { Walks members.now table.now n p size path.now k offset result }
{
    if k == path.len() {
        return Ok(Target {
            offset,
            size,
            scalar: kind_in(table, p),
        });
    }
    // a match, since the proof does not close over the closure of a `map_err`
    let inner = match enter(members, table, n, p, Step::from(path[k])) {
        Ok(inner) => inner,
        Err(step) => return Err(step.at(k)),
    };
    walk(
        members,
        table,
        n,
        inner.stand,
        inner.size,
        path,
        k + 1,
        offset + inner.offset,
    )
}
