// The planned order: a pass over the members for each alignment, from the largest down, and one for the runtime array.
#![tactic(auto)]

ghost use Rattle.std.specs.Prelude.{◌≡◌, ◌++◌, ◌+◌, ◌≤◌, length, drop};
ghost use Rattle.std.proofs.lemmas.List.Edits.{sets};
ghost use Rattle.wgsl.specs.Types.{Members};
ghost use Rattle.wgsl.specs.Rule.{count_of};
ghost use Rattle.wgsl.specs.Order.{planned_order};
ghost use Rattle.orders_members.specs.Entries.{Struct};
ghost use Rattle.orders_plan.specs.Keyed.{keyed_at};

use layout_values::value::Value;
use orders_members::member_key;

// Puts the positions of the members with this key, as they stand, into the list from place `k` on; answers the place after them.
fn put_keyed(
    members: &[u8],
    table: &[Value],
    l: Value,
    key: u32,
    order: &mut [u32],
    k: usize,
) -> usize
    requires { (ms : Members) × Struct members.now table.now l ms × (k + length (keyed_at key 0 ms) ≤ length order.old) }
    ensures place { (ms : Members) → Struct members.now table.now l ms → result ≡ k + length (keyed_at key 0 ms) }
    ensures list { (ms : Members) → Struct members.now table.now l ms → order.new ≡ sets order.old k (keyed_at key 0 ms) }
{
    let length = l.stride as usize;
    let first = l.reference as usize * length;
    let mut next = k;
    for i in 0..l.count {
        if member_key(members, table, first + length * i as usize) == key {
            order[next] = i;
            next += 1;
        }
    }
    next
}

// Puts the planned order of a struct of the value `l` into the front of the list. Later places stay.
pub fn plan_members(members: &[u8], table: &[Value], l: Value, order: &mut [u32])
    requires { (ms : Members) × Struct members.now table.now l ms × (count_of ms ≤ length order.old) }
    ensures { (ms : Members) → Struct members.now table.now l ms → order.new ≡ planned_order ms ++ drop (count_of ms) order.old }
{
    let mut next = 0;
    for step in 0..32u32 {
        next = put_keyed(members, table, l, 1 << (31 - step), order, next);
    }
    put_keyed(members, table, l, 0, order, next);
}
