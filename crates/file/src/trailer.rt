// The trailer, and the refusals 1 to 4.
ghost use Rattle.std.specs.Prelude.{◌≡◌, not, ◌&&◌, ◌≤◌, ◌<◌, length};
ghost use Rattle.wgsl.specs.File.{trailer_length, trailer_of, most_types, most_members, between, length_by, check_trailer};
ghost use Rattle.file.specs.Fields.{trailer_is, trailer_over, said_trailer};

use crate::fields::{TYPE_ENTRY_LENGTH, half, member_length};
use numbers::bytes::u32_at;
use said::refusal::Refusal;

// How long the trailer is, the forms, and the most types and members that a file may have.
pub const TRAILER_LENGTH: usize = 10;

const FORM_1: u32 = 1;

const FORM_2: u32 = 2;

const MOST_TYPES: u32 = 256;

const MOST_MEMBERS: u32 = 1024;

#[derive(Clone, Copy, Debug, PartialEq, Eq)]
pub struct Trailer {
    pub types: u32,
    pub members: u32,
    pub start: u32,
    pub form: u32,
}

// The fields of the trailer, where the file has one.
pub fn trailer_fields(f: &[u8]) -> Trailer
    requires { trailer_length ≤ length f.now }
    ensures { trailer_is result ≡ trailer_of f.now }
{
    let at = f.len() - TRAILER_LENGTH;
    Trailer {
        types: half(f, at),
        members: half(f, at + 2),
        start: u32_at(f, at + 4),
        form: half(f, at + 8),
    }
}

// Whether a form is neither of the two.
fn form_unknown(form: u32) -> bool
    ensures { result ≡ not (between 1 2 form) }
{
    if form < FORM_1 {
        return true;
    }
    FORM_2 < form
}

// Whether T or M is outside its range.
fn counts_wrong(types: u32, members: u32) -> bool
    ensures { result ≡ not (between 1 most_types types && between 0 most_members members) }
{
    if types < 1 {
        return true;
    }
    if MOST_TYPES < types {
        return true;
    }
    MOST_MEMBERS < members
}

// The length that the fields of a trailer say.
pub fn length_by(types: u32, members: u32, start: u32, form: u32) -> usize
    requires { (types ≤ most_types) × (members ≤ most_members) }
    ensures { result ≡ length_by (trailer_over types members start form) }
{
    let length = member_length(form) as usize;
    start as usize
        + (TYPE_ENTRY_LENGTH * types as usize + length * members as usize)
        + TRAILER_LENGTH
}

// The trailer, or the first of the refusals 1 to 4.
pub fn check_trailer(f: &[u8]) -> Result<Trailer, Refusal>
    ensures { said_trailer result ≡ check_trailer f.now }
{
    if f.len() < TRAILER_LENGTH {
        return Err(Refusal::Short);
    }
    let t = trailer_fields(f);
    if form_unknown(t.form) {
        return Err(Refusal::Form);
    }
    if counts_wrong(t.types, t.members) {
        return Err(Refusal::Counts);
    }
    if f.len() != length_by(t.types, t.members, t.start, t.form) {
        return Err(Refusal::Length);
    }
    Ok(t)
}
