// The names of the members of a form 2 file.
ghost use Rattle.std.specs.Prelude.{◌≡◌, not, ◌+◌, ◌*◌, ◌≤◌, length};
ghost use Rattle.wgsl.specs.File.{trailer_of};
ghost use Rattle.wgsl.specs.Form.{member_place, nameless};

use numbers::bytes::u32_at;

// How many bytes of a member entry are its fields.
pub const FIELDS_LENGTH: usize = 12;

// How long a member entry with a name is.
const NAMED_LENGTH: usize = 16;

// Whether one of the members of a form 2 file has a name; their entries begin at `from`.
pub fn is_named(f: &[u8], from: usize, members: usize) -> bool
    requires { ((trailer_of f.now).form ≡ 2) × (from ≡ member_place f.now 0) × (from + 16 * members ≤ length f.now) }
    ensures { result ≡ not (nameless f.now members) }
{
    for m in 0..members {
        if u32_at(f, from + NAMED_LENGTH * m + FIELDS_LENGTH) != 0 {
            return true;
        }
    }
    false
}
