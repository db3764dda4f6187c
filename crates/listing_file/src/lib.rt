// The listing of a layout file: its text, put into a buffer.
#![tactic(auto)]

ghost use Rattle.std.specs.Prelude.{List, ℕ, ◌≤◌, length};
ghost use Rattle.wgsl.specs.Types.{Ty};
ghost use Rattle.wgsl.specs.Said.{good};
ghost use Rattle.wgsl.specs.Listing.{listed, listing_of};
ghost use Rattle.puts.specs.Put.{Put};
ghost use Rattle.listing_file.specs.List.{listing_room, Entries};

use file::trailer::check_trailer;
use layout_table::fill;
use layout_values::value::{Value, blank, value_at};
use listing_text::{put_heading, put_line, put_refused};

// The most bytes of a file that is listed.
const INPUT_LIMIT: usize = 65536;

// Puts the lines of an accepted file's entries.
fn put_entries(out: &mut [u8], table: &[Value], types: u32) -> usize
    requires room { listing_room ≤ length out.old }
    requires entries { (f : List ℕ) × (ts : List Ty) × Entries f table.now types ts }
    ensures { (f : List ℕ) (ts : List Ty) → Entries f table.now types ts → Put out.old 0 (listed (good ts)) result out.new }
{
    let mut at = put_heading(out, 0, types);
    for k in 0..types {
        let l = value_at(table, k as usize);
        at = put_line(out, at, k, l.size, l.align, l.own_stride());
    }
    at
}

// Puts the listing of a file at the front of `out` and answers how long it is; later bytes stay.
pub fn list(file: &[u8], out: &mut [u8]) -> usize
    requires { listing_room ≤ length out.old }
    ensures { Put out.old 0 (listing_of file.now) result out.new }
{
    if INPUT_LIMIT < file.len() {
        return put_refused(out, 0, 17, 0);
    }
    match check_trailer(file) {
        Err(r) => put_refused(out, 0, r.number(), r.place()),
        Ok(t) => {
            let mut table = blank();
            match fill(file, t, &mut table) {
                Ok(_) => put_entries(out, &table, t.types),
                Err(r) => put_refused(out, 0, r.number(), r.place()),
            }
        }
    }
}
