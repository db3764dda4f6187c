// Whether an order names every member once, and where a struct ends with its members in that order.
#![tactic(auto)]

ghost use Rattle.std.specs.Prelude.{◌≡◌, true, ◌&&◌, ℕ, ◌≤◌, length};
ghost use Rattle.std.proofs.Math.Option.{some};
ghost use Rattle.wgsl.specs.Types.{Ty, Members};
ghost use Rattle.wgsl.specs.Rule.{count_of};
ghost use Rattle.wgsl.specs.Order.{all_differ, reordered};
ghost use Rattle.file.specs.Fields.{member_is};
ghost use Rattle.layout_structs.specs.SoFar.{followed};
ghost use Rattle.orders_members.specs.Entries.{Struct};
ghost use Rattle.orders_check.specs.Checked.{all_below, laid_end, Last};
ghost use Rattle.said.specs.Answer.{maybe_of};

use file::fields::{MemberEntry, member_at};
use layout_members::given_align;
use layout_structs::{SoFar, no_members, step};
use layout_values::value::{Value, value_at};
use numbers::limit::round_up;

// Whether every number of the list is below `n`, at most 1,024, and no two are the same.
pub fn all_once(order: &[u32], n: usize) -> bool
    requires { n ≤ 1024 }
    ensures { result ≡ (all_below n order.now && all_differ order.now) }
{
    let mut seen = [false; 1024];
    for &position in order {
        let p = position as usize;
        if n <= p {
            return false;
        }
        if seen[p] {
            return false;
        }
        seen[p] = true;
    }
    true
}

// Where a struct ends whose last member, of the value `l`, comes after those that are told by `past`: its size, or where that member starts,
// if it is a runtime array.
fn end_after(past: SoFar, l: Value, m: MemberEntry) -> Option<u32>
    requires { (ms : Members) × (t : Ty) × Last past l (member_is m) ms t }
    ensures { (k : ℕ) (ms : Members) (t : Ty) → Last past l (member_is m) ms t → maybe_of result ≡ laid_end k (followed ms t (member_is m)) }
{
    if l.opens() {
        return round_up(given_align(m, l.align), past.ok()?.end);
    }
    let all = step(past, l, m, true).ok()?.ok()?;
    round_up(all.align, all.end)
}

// Where a struct of the value `l` ends with its members in this order: its size, or where its runtime array starts. None where a runtime
// array is not the last, or a number passes the limit.
pub fn end_in(members: &[u8], table: &[Value], l: Value, order: &[u32]) -> Option<u32>
    requires { (ms : Members) × Struct members.now table.now l ms × (length order.now ≡ count_of ms) × (all_below (count_of ms) order.now ≡ true) }
    ensures { (k : ℕ) (ms new : Members) → Struct members.now table.now l ms → reordered ms order.now ≡ some new → maybe_of result ≡ laid_end k new }
{
    let first = l.reference as usize;
    let length = l.stride as usize;
    let last = l.count as usize - 1;
    let mut past = no_members();
    for &position in &order[..last] {
        let m = member_at(members, (first + position as usize) * length);
        past = step(past, value_at(table, m.ty as usize), m, false).ok()?;
    }
    let m = member_at(members, (first + order[last] as usize) * length);
    end_after(past, value_at(table, m.ty as usize), m)
}
