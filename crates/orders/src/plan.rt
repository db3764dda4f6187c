// `plan_order`: 02's order is 1 to 7, 24, 8, 9, 14.
ghost use Rattle.std.specs.Prelude.{◌≡◌};
ghost use Rattle.wgsl.specs.Types.{Ty, Members};
ghost use Rattle.wgsl.specs.Call.{answer_of, contents_of};
ghost use Rattle.wgsl.specs.Order.{plan_call};
ghost use Rattle.walk_decide.specs.Meant.{Meant};
ghost use Rattle.orders_members.specs.Entries.{Struct};
ghost use Rattle.orders.specs.Promise.{StructPlanned, MeantPlanned};
ghost use Rattle.said.specs.Answer.{said};

use file::kinds::STRUCT;
use file::trailer::check_trailer;
use layout_table::{Ground, find};
use layout_values::value::{Value, blank};
use orders_plan::plan_members;
use said::refusal::Refusal;

// 14, and then the order.
fn plan_struct(members: &[u8], table: &[Value], l: Value, order: &mut [u32]) -> Result<u32, Refusal>
    requires { (ms : Members) × Struct members.now table.now l ms }
    ensures { StructPlanned members.now table.now l result order.old order.new }
{
    if order.len() < l.count as usize {
        return Err(Refusal::Count);
    }
    plan_members(members, table, l, order);
    Ok(l.count)
}

// 9, and then the rest.
fn plan_entry_at(
    file: &[u8],
    e: usize,
    g: Ground,
    table: &[Value],
    order: &mut [u32],
) -> Result<u32, Refusal>
    requires { (t : Ty) × Meant file.now e g table.now t }
    ensures { MeantPlanned file.now e g table.now result order.old order.new }
{
    let l = g.value;
    if l.kind != STRUCT {
        return Err(Refusal::Absent);
    }
    plan_struct(&file[g.start..g.end], table, l, order)
}

// The positions of the members of entry `entry`, a struct, by falling alignment, ties as they stand, a runtime array last, into the front of
// the list; answers how many. Later places stay. It is an order, and no gain is promised: `check_order` says whether it is one.
// Refuses 1 to 7, 24 (file), 8, 9 (no struct), 14 (the list is shorter than the members).
pub fn plan_order(file: &[u8], entry: u32, order: &mut [u32]) -> Result<u32, Refusal>
    ensures answer { said result ≡ answer_of (plan_call file.now entry order.old) }
    ensures list { order.new ≡ contents_of order.old (plan_call file.now entry order.old) }
{
    let trailer = check_trailer(file)?;
    let mut table = blank();
    let found = find(file, trailer, entry, &mut table)?;
    plan_entry_at(file, entry as usize, found, &table, order)
}
