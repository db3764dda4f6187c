// The uniform profile: whether an entry may live in a uniform buffer. Upward from entry 0, each entry is told the lowest broken one among
// it and those that it reaches.
#![tactic(auto)]

ghost use Rattle.std.specs.Prelude.{◌≡◌, true, List, ℕ, ◌*◌, ◌<◌, length};
ghost use Rattle.wgsl.specs.Types.{Ty, everywhere};
ghost use Rattle.wgsl.specs.Rule.{is_well_formed};
ghost use Rattle.wgsl.specs.Uniform.{may_live, uniform_call};
ghost use Rattle.layout_values.specs.Value.{value_of};
ghost use Rattle.walk_shapes.specs.Basis.{Basis};
ghost use Rattle.walk_decide.specs.Meant.{Meant};
ghost use Rattle.uniform.specs.Lowest.{types_at, TypesInside, lowest_among, refers_by, RefersInside, lowest_by, LowestAsks, verdict_of, IsLowest};
ghost use Rattle.said.specs.Answer.{said};

use file::fields::member_at;
use file::kinds::{STRUCT, is_scalar};
use file::trailer::check_trailer;
use layout_table::{Ground, find};
use layout_values::value::{Value, blank, value_at};
use said::refusal::Refusal;
use uniform_rules::keeps;
use walk_decide::allow;

// What stands for an entry where none is broken.
const NO_ENTRY: u32 = 256;

// The lowest number told of the types of a struct's members; `l` is its value.
fn lowest_member(members: &[u8], told: &[u32], l: Value) -> u32
    requires { TypesInside members.now (length told.now) l.stride l.count (l.reference * l.stride) }
    ensures { result ≡ lowest_among told.now (types_at members.now l.stride l.count (l.reference * l.stride)) }
{
    let length = l.stride as usize;
    let first = l.reference as usize * length;
    let mut low = NO_ENTRY;
    for i in 0..l.count as usize {
        let ty = member_at(members, first + length * i).ty as usize;
        low = low.min(told[ty]);
    }
    low
}

// The lowest number told of what an entry of the value `l` refers to.
#[tactic(auto, unfolding(crate::specs::Lowest::refers_by, crate::specs::Lowest::lowest_among))]
fn lowest_below(members: &[u8], told: &[u32], l: Value) -> u32
    requires { RefersInside members.now (length told.now) l }
    ensures { result ≡ lowest_among told.now (refers_by members.now l) }
{
    if is_scalar(l.kind) {
        return NO_ENTRY;
    }
    if l.kind == STRUCT {
        return lowest_member(members, told, l);
    }
    let below = l.reference as usize;
    NO_ENTRY.min(told[below])
}

// The lowest broken one among entry `k` and those that it reaches, which are lower.
#[tactic(auto, unfolding(crate::specs::Lowest::lowest_by))]
fn lowest_at(members: &[u8], table: &[Value], told: &[u32], k: usize) -> u32
    requires { LowestAsks members.now table.now (length told.now) k }
    ensures { result ≡ lowest_by members.now table.now told.now k }
{
    let l = value_at(table, k);
    let low = lowest_below(members, told, l);
    if low < NO_ENTRY {
        return low;
    }
    if keeps(members, table, l) {
        return NO_ENTRY;
    }
    k as u32
}

// The same of entry `e` of an accepted file, with nothing told before.
fn lowest_broken(members: &[u8], table: &[Value], e: usize) -> u32
    requires { (f : List ℕ) × (ts : List Ty) × Basis f ts members.now table.now × (e < length ts) }
    ensures { (f : List ℕ) (ts : List Ty) → Basis f ts members.now table.now → e < length ts → IsLowest f ts e result }
{
    let mut told = [NO_ENTRY; 256];
    for k in 0..e + 1 {
        told[k] = lowest_at(members, table, &told, k);
    }
    told[e]
}

// 9, for open types too, and 10; `l` is the value of the entry's type.
#[tactic(auto, using(crate::proofs::MayLive::no_size, crate::proofs::MayLive::some_size))]
fn may_live(l: Value) -> Result<(), Refusal>
    ensures { (t : Ty) → l ≡ value_of l.stride l.reference t → everywhere is_well_formed t ≡ true → said result ≡ may_live t }
{
    if l.size == 0 {
        return Err(Refusal::Absent);
    }
    allow(l, 0, true)
}

// 19, where an entry is broken.
#[tactic(auto, unfolding(crate::specs::Lowest::verdict_of))]
fn verdict(low: u32) -> Result<u32, Refusal>
    ensures { said result ≡ verdict_of low }
{
    if low == NO_ENTRY {
        return Ok(0);
    }
    Err(Refusal::NotUniform(low as usize))
}

// 9, 10 and 19, of entry `e`, which is found in the table.
fn uniform_at(file: &[u8], e: usize, g: Ground, table: &[Value]) -> Result<u32, Refusal>
    requires { (t : Ty) × Meant file.now e g table.now t }
    ensures { (t : Ty) → Meant file.now e g table.now t → said result ≡ uniform_call file.now e }
{
    may_live(g.value)?;
    verdict(lowest_broken(&file[g.start..g.end], table, e))
}

// Whether entry `entry` may live in a uniform buffer: 0, or what is in the way.
// Refuses 1 to 7, 24 (file), 8, 9 (no layout, or open), 10, 19 (the lowest entry, of it and those that it reaches, that breaks a rule).
pub fn uniform(file: &[u8], entry: u32) -> Result<u32, Refusal>
    ensures { said result ≡ uniform_call file.now entry }
{
    let trailer = check_trailer(file)?;
    let mut table = blank();
    let found = find(file, trailer, entry, &mut table)?;
    uniform_at(file, entry as usize, found, &table)
}
