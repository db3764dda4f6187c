// The two moves between the forms of a layout file (02, E7).
#![tactic(auto)]

pub mod entries;
pub mod names;

ghost use Rattle.std.specs.Prelude.{◌≡◌, ◌+◌, ◌≤◌, length};
ghost use Rattle.wgsl.specs.Number.{bytes_of};
ghost use Rattle.wgsl.specs.Said.{good};
ghost use Rattle.wgsl.specs.File.{check_trailer, member_entry_length, member_fields_length};
ghost use Rattle.wgsl.specs.Call.{answer_of, contents_of};
ghost use Rattle.wgsl.specs.Form.{moved_to, put_out, move_on_call, move_back_call};
ghost use Rattle.said.specs.Answer.{said, Answered};
ghost use Rattle.file.specs.Fields.{trailer_is};
ghost use Rattle.layout_table.specs.Table.{said_checked};
ghost use Rattle.forms.specs.OfForm.{trailer_of_form};

use crate::entries::put_file;
use crate::names::is_named;
use file::fields::{TYPE_ENTRY_LENGTH, member_length};
use file::trailer::{TRAILER_LENGTH, Trailer, length_by, trailer_fields};
use layout_table::accept;
use numbers::wide::wide;
use said::refusal::Refusal;

// The trailer of an accepted file of this form, or the refusal.
// Refuses 1 to 7, 24, 2 for any other form.
fn form_is(f: &[u8], form: u32) -> Result<Trailer, Refusal>
    ensures { said_checked result ≡ trailer_of_form form f.now }
{
    if f.len() < TRAILER_LENGTH {
        return Err(Refusal::Short);
    }
    let t = trailer_fields(f);
    if t.form != form {
        return Err(Refusal::Form);
    }
    accept(f)
}

// The file in another form, with a name after the fields of each member, into `out`; `bytes` are the form's.
// Refuses 15.
fn put_out(
    f: &[u8],
    t: Trailer,
    form: u32,
    name: &[u8],
    bytes: &[u8],
    out: &mut [u8],
) -> Result<usize, Refusal>
    requires { (check_trailer f.now ≡ good (trailer_is t)) × (1 ≤ form) × (form ≤ 2) × (member_fields_length + length name.now ≡ member_entry_length form) × (bytes.now ≡ bytes_of 2 form) }
    ensures { Answered (put_out (moved_to form name.now f.now) out.old) result out.old out.new }
{
    if out.len() < length_by(t.types, t.members, t.start, form) {
        return Err(Refusal::Buffer);
    }
    let from = wide(t.start) + TYPE_ENTRY_LENGTH * wide(t.types);
    let long = wide(member_length(t.form));
    Ok(put_file(f, from, long, wide(t.members), name, bytes, out))
}

// A form 1 file as a form 2 file without names, into `out`: its length. Later bytes of `out` stay.
// Refuses 1 to 7, 24, 15.
pub fn to_form_2(file: &[u8], out: &mut [u8]) -> Result<usize, Refusal>
    ensures answer { said result ≡ answer_of (move_on_call file.now out.old) }
    ensures out { out.new ≡ contents_of out.old (move_on_call file.now out.old) }
{
    let t = form_is(file, 1)?;
    put_out(file, t, 2, b"\0\0\0\0", b"\x02\0", out)
}

// A form 2 file without names as a form 1 file, into `out`: its length. Later bytes of `out` stay.
// Refuses 1 to 7, 24, 20, 15.
pub fn to_form_1(file: &[u8], out: &mut [u8]) -> Result<usize, Refusal>
    ensures answer { said result ≡ answer_of (move_back_call file.now out.old) }
    ensures out { out.new ≡ contents_of out.old (move_back_call file.now out.old) }
{
    let t = form_is(file, 2)?;
    let from = wide(t.start) + TYPE_ENTRY_LENGTH * wide(t.types);
    if is_named(file, from, wide(t.members)) {
        return Err(Refusal::Named);
    }
    put_out(file, t, 1, b"", b"\x01\0", out)
}
