// `check_order`: 02's order is 1 to 7, 24, 8, 9, 23.
ghost use Rattle.std.specs.Prelude.{◌≡◌};
ghost use Rattle.wgsl.specs.Types.{Ty, Members};
ghost use Rattle.wgsl.specs.Place.{extent_of};
ghost use Rattle.wgsl.specs.Order.{order_call};
ghost use Rattle.walk_decide.specs.Meant.{Meant};
ghost use Rattle.orders.specs.Promise.{Ends, StructMeant, StructOrdered, MeantOrdered};
ghost use Rattle.said.specs.Answer.{said};

use file::kinds::STRUCT;
use file::trailer::check_trailer;
use layout_table::{Ground, find};
use layout_values::value::{Value, blank};
use orders_check::{all_once, end_in};
use said::refusal::Refusal;
use walk_decide::rest_of;

// Where a struct of the value `l` ends as it stands: its size, or where its runtime array starts.
fn end_now(members: &[u8], table: &[Value], l: Value) -> usize
    requires { (t : Ty) × Ends members.now table.now l t }
    ensures { (t : Ty) → Ends members.now table.now l t → result ≡ extent_of 0 t }
{
    if l.opens() {
        return rest_of(members, table, l).offset;
    }
    l.size as usize
}

// 23 for a struct of the value `l`: every position once, and a smaller end.
fn check_struct(members: &[u8], table: &[Value], l: Value, order: &[u32]) -> Result<u32, Refusal>
    requires { (ms : Members) × StructMeant members.now table.now l ms }
    ensures { StructOrdered members.now table.now l order.now result }
{
    let count = l.count as usize;
    if order.len() != count {
        return Err(Refusal::NoOrder);
    }
    if !all_once(order, count) {
        return Err(Refusal::NoOrder);
    }
    let end = end_in(members, table, l, order).ok_or(Refusal::NoOrder)?;
    if (end as usize) < end_now(members, table, l) {
        return Ok(end);
    }
    Err(Refusal::NoOrder)
}

// 9, and then the rest.
fn check_entry_at(
    file: &[u8],
    e: usize,
    g: Ground,
    table: &[Value],
    order: &[u32],
) -> Result<u32, Refusal>
    requires { (t : Ty) × Meant file.now e g table.now t }
    ensures { MeantOrdered file.now e g table.now order.now result }
{
    let l = g.value;
    if l.kind != STRUCT {
        return Err(Refusal::Absent);
    }
    check_struct(&file[g.start..g.end], table, l, order)
}

// Whether the members of entry `entry`, a struct, may stand in this order, given as their positions: every one once, a runtime array still
// last, no number above the limit, and a smaller end, which is the answer: the size, or where the runtime array starts.
// Refuses 1 to 7, 24 (file), 8, 9 (no struct), 23 (any other order, of whatever length).
pub fn check_order(file: &[u8], entry: u32, order: &[u32]) -> Result<u32, Refusal>
    ensures { said result ≡ order_call file.now entry order.now }
{
    let trailer = check_trailer(file)?;
    let mut table = blank();
    let found = find(file, trailer, entry, &mut table)?;
    check_entry_at(file, entry as usize, found, &table, order)
}
