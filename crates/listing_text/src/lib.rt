// Lines of text into a lent buffer: what the listing program writes.
#![tactic(auto)]

ghost use Rattle.std.specs.Prelude.{◌≡◌, ◌+◌, ◌≤◌, length};
ghost use Rattle.wgsl.specs.Listing.{decimal, has_place, refused_line};
ghost use Rattle.puts.specs.Put.{Put};
ghost use Rattle.listing_text.specs.Line.{marked, marked_column, line, heading};

use puts::put;

// Puts a number in decimal: at most ten digits.
pub fn put_decimal(out: &mut [u8], at: usize, n: u32) -> usize
    requires { at + 10 ≤ length out.old }
    ensures { Put out.old at (decimal n) result out.new }
{
    if n < 10 {
        out[at] = b'0' + (n % 10) as u8;
        return at + 1;
    }
    let next = put_decimal(out, at, n / 10);
    out[next] = b'0' + (n % 10) as u8;
    next + 1
}

// Puts a number, or a dash for an absent one, which 0 stands for.
pub fn put_marked(out: &mut [u8], at: usize, n: u32) -> usize
    requires { at + 10 ≤ length out.old }
    ensures { Put out.old at (marked n) result out.new }
{
    if n == 0 {
        return put(out, at, b"-");
    }
    put_decimal(out, at, n)
}

// Puts a column after the first: a space, and a number or a dash.
pub fn put_column(out: &mut [u8], at: usize, n: u32) -> usize
    requires { at + 11 ≤ length out.old }
    ensures { Put out.old at (marked_column n) result out.new }
{
    let a = put(out, at, b" ");
    put_marked(out, a, n)
}

// Puts the line of an entry: its number, its size, its alignment and its stride, 0 standing for an absent one.
#[tactic(auto, using(crate::proofs::Decimal::decimal_length, crate::proofs::Lines::column_length))]
pub fn put_line(out: &mut [u8], at: usize, k: u32, size: u32, align: u32, stride: u32) -> usize
    requires { at + 44 ≤ length out.old }
    ensures { Put out.old at (line k size align stride) result out.new }
{
    let a = put_decimal(out, at, k);
    let b = put_column(out, a, size);
    let c = put_column(out, b, align);
    let d = put_column(out, c, stride);
    put(out, d, b"\n")
}

// Puts the first line of a listing.
#[tactic(auto, using(crate::proofs::Decimal::decimal_length, crate::proofs::Lines::column_length))]
pub fn put_heading(out: &mut [u8], at: usize, types: u32) -> usize
    requires { at + 19 ≤ length out.old }
    ensures { Put out.old at (heading types) result out.new }
{
    let a = put(out, at, b"entries ");
    let b = put_decimal(out, a, types);
    put(out, b, b"\n")
}

// Whether a refusal of this number is written with its place: 5 to 7 and 24.
#[tactic(auto, unfolding(wgsl::specs::Listing::has_place, wgsl::specs::File::between))]
fn has_place(number: u32) -> bool
    ensures { result ≡ has_place number }
{
    matches!(number, 5..=7 | 24)
}

// Puts the line of a refusal.
#[tactic(auto, using(crate::proofs::Decimal::decimal_length, crate::proofs::Lines::column_length))]
pub fn put_refused(out: &mut [u8], at: usize, number: u32, place: u32) -> usize
    requires { at + 33 ≤ length out.old }
    ensures { Put out.old at (refused_line number place) result out.new }
{
    let a = put(out, at, b"refused ");
    let b = put_decimal(out, a, number);
    if has_place(number) {
        let c = put(out, b, b" at ");
        let d = put_decimal(out, c, place);
        return put(out, d, b"\n");
    }
    put(out, b, b"\n")
}
