// A file put in another form: the bytes before its member entries, these with another name after their fields, the trailer.
ghost use Rattle.std.specs.Prelude.{◌≡◌, ◌++◌, ◌+◌, ◌*◌, ◌≤◌, length, take, drop};
ghost use Rattle.wgsl.specs.File.{trailer_length, member_fields_length};
ghost use Rattle.puts.specs.Put.{Put};
ghost use Rattle.forms.specs.Entries.{entries_from, file_with};

use crate::names::FIELDS_LENGTH;
use file::trailer::TRAILER_LENGTH;
use puts::put;

// How many bytes of the trailer stand before the form.
const BEFORE_FORM: usize = 8;

// Puts `many` bytes of the file from `from` on, and others after them.
fn put_part(f: &[u8], from: usize, many: usize, after: &[u8], out: &mut [u8], at: usize) -> usize
    requires { (from + many ≤ length f.now) × (at + many + length after.now ≤ length out.old) }
    ensures { Put out.old at (take many (drop from f.now) ++ after.now) result out.new }
{
    let a = put(out, at, &f[from..from + many]);
    put(out, a, after)
}

// Puts member entries, the first at `from`, each with the name after its fields.
fn put_entries(
    f: &[u8],
    from: usize,
    long: usize,
    members: usize,
    name: &[u8],
    out: &mut [u8],
    at: usize,
) -> usize
    requires { (member_fields_length ≤ long) × (from + long * members ≤ length f.now) × (at + (member_fields_length + length name.now) * members ≤ length out.old) }
    ensures { Put out.old at (entries_from f.now long name.now members from) result out.new }
{
    let mut end = at;
    for m in 0..members {
        end = put_part(f, from + long * m, FIELDS_LENGTH, name, out, end);
    }
    end
}

// Puts a file in another form: the bytes before its member entries, which begin at `from`, these with the name after the fields of each,
// and the trailer with the bytes of the form.
pub fn put_file(
    f: &[u8],
    from: usize,
    long: usize,
    members: usize,
    name: &[u8],
    form: &[u8],
    out: &mut [u8],
) -> usize
    requires { (member_fields_length ≤ long) × (from + long * members + trailer_length ≡ length f.now) × (from + (member_fields_length + length name.now) * members + (8 + length form.now) ≤ length out.old) }
    ensures { Put out.old 0 (file_with f.now from long members name.now form.now) result out.new }
{
    let a = put(out, 0, &f[..from]);
    let b = put_entries(f, from, long, members, name, out, a);
    put_part(f, f.len() - TRAILER_LENGTH, BEFORE_FORM, form, out, b)
}
