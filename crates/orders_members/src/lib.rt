// The members of a struct as orders see them: by their keys.
#![tactic(auto)]

ghost use Rattle.std.specs.Prelude.{◌≡◌, ℕ};
ghost use Rattle.std.proofs.Math.Option.{Option};
ghost use Rattle.wgsl.specs.Types.{Ty};
ghost use Rattle.orders_members.specs.Entries.{Entered, key_of};

use file::fields::member_at;
use file::kinds::RUNTIME;
use layout_members::given_align;
use layout_values::value::{Value, value_at};

// The key of the member whose entry begins at byte `m`: its alignment, given or its type's; 0 of a runtime array.
#[tactic(auto, using(crate::proofs::KeyOf::runtime_key, crate::proofs::KeyOf::other_key))]
pub fn member_key(members: &[u8], table: &[Value], m: usize) -> u32
    requires { (t : Ty) × (size : Option ℕ) × (align : Option ℕ) × Entered members.now table.now m t size align }
    ensures { (t : Ty) (size align : Option ℕ) → Entered members.now table.now m t size align → result ≡ key_of t align }
{
    let e = member_at(members, m);
    let l = value_at(table, e.ty as usize);
    if l.kind == RUNTIME {
        return 0;
    }
    given_align(e, l.align)
}
