// The exports for C: numbers and slices in, one struct of 16 bytes out. Nothing is decided here. The shim declares each of them again, in
// Rust (shim/src/surface.rs); a test holds it to this file. Each is a name of the C interface with a contract of its own, so that alike
// ones stand side by side; and C has no `Result` and no `Option`, so that a number says which it is.
#![tactic(auto)]

ghost use Rattle.std.specs.Prelude.{◌≡◌};
ghost use Rattle.wgsl.specs.Call.{check_of, size_call, align_call, min_size_call, layout_call, rank_call, common_call, answer_of, contents_of, read_call, write_call, offset_of, view_call, set_call};
ghost use Rattle.wgsl.specs.BitField.{extracted_u32, extracted_i32, inserted, pattern_of, signed_of};
ghost use Rattle.wgsl.specs.BitFieldCall.{extract_call, insert_call};
ghost use Rattle.wgsl.specs.Uniform.{uniform_call};
ghost use Rattle.wgsl.specs.Form.{move_on_call, move_back_call};
ghost use Rattle.wgsl.specs.Site.{inheriting_call, fresh_call, clear_call, member_call, site_set_call, zero_of, mask_after, site_answer, site_after, mask_set};
ghost use Rattle.wgsl.specs.Order.{plan_call, order_call};
ghost use Rattle.wgsl.specs.Literal.{convert_call};
ghost use Rattle.wgsl.specs.Clean.{clean_call, changed_of, first_after, clean_after};
ghost use Rattle.said.specs.Answer.{said, maybe_of};
ghost use Rattle.surface.specs.Crossing.{crossed, crossed_maybe, told, laid_out, size_out, site_out};

use said::refusal::Refusal;

// An answer as it crosses to C: 0 or document 01's number, its place, the value (0 when refused).
#[repr(C)]
#[derive(Clone, Copy)]
pub struct Crossing {
    pub refusal: u32,
    pub place: u32,
    pub value: u64,
}

// A number, a length or a pattern, or a refusal, as it crosses. (A `usize` becomes one by `as`: it has no `From` for `u64`.)
fn cross(answer: Result<u64, Refusal>) -> Crossing
    ensures { result ≡ crossed (said answer) }
{
    match answer {
        Ok(value) => Crossing {
            refusal: 0,
            place: 0,
            value,
        },
        Err(refusal) => Crossing {
            refusal: refusal.number(),
            place: refusal.place(),
            value: 0,
        },
    }
}

// A number that may be absent, as it crosses.
fn cross_maybe(number: Option<u32>) -> u64
    ensures { result ≡ crossed_maybe (maybe_of number) }
{
    number.map_or(u64::MAX, u64::from)
}

#[unsafe(no_mangle)]
pub extern "C" fn lepugaso_surface_check(file: &[u8]) -> Crossing
    ensures { result ≡ crossed (check_of file.now) }
{
    cross(lepugaso::check(file).map(u64::from))
}

#[unsafe(no_mangle)]
pub extern "C" fn lepugaso_surface_size(file: &[u8], entry: u32) -> Crossing
    ensures { result ≡ crossed (size_call file.now entry) }
{
    cross(lepugaso::size(file, entry).map(u64::from))
}

#[unsafe(no_mangle)]
pub extern "C" fn lepugaso_surface_align(file: &[u8], entry: u32) -> Crossing
    ensures { result ≡ crossed (align_call file.now entry) }
{
    cross(lepugaso::align(file, entry).map(u64::from))
}

#[unsafe(no_mangle)]
pub extern "C" fn lepugaso_surface_min_size(file: &[u8], entry: u32) -> Crossing
    ensures { result ≡ crossed (min_size_call file.now entry) }
{
    cross(lepugaso::min_size(file, entry).map(u64::from))
}

// A good answer is in `out`: the size, the alignment, the minimum size, the stride.
#[unsafe(no_mangle)]
pub extern "C" fn lepugaso_surface_layout(file: &[u8], entry: u32, out: &mut [u64; 4]) -> Crossing
    ensures answer { result ≡ crossed (told (layout_call file.now entry)) }
    ensures out { out.new ≡ laid_out (layout_call file.now entry) out.old }
{
    match lepugaso::layout(file, entry) {
        Ok(s) => {
            *out = [
                cross_maybe(s.size),
                cross_maybe(s.align),
                cross_maybe(s.min),
                cross_maybe(s.stride),
            ];
            cross(Ok(0))
        }
        Err(r) => cross(Err(r)),
    }
}

#[unsafe(no_mangle)]
pub extern "C" fn lepugaso_surface_rank(file: &[u8], from: u32, to: u32) -> Crossing
    ensures { result ≡ crossed (rank_call file.now from to) }
{
    cross(lepugaso::rank(file, from, to).map(u64::from))
}

#[unsafe(no_mangle)]
pub extern "C" fn lepugaso_surface_common(file: &[u8], entries: &[u32]) -> Crossing
    ensures { result ≡ crossed (common_call file.now entries.now) }
{
    cross(lepugaso::common(file, entries).map(u64::from))
}

#[unsafe(no_mangle)]
pub extern "C" fn lepugaso_surface_write(
    file: &[u8],
    entry: u32,
    words: &[u32],
    buf: &mut [u8],
) -> Crossing
    ensures answer { result ≡ crossed (answer_of (write_call file.now entry words.now buf.old)) }
    ensures buffer { buf.new ≡ contents_of buf.old (write_call file.now entry words.now buf.old) }
{
    cross(lepugaso::write(file, entry, words, buf).map(u64::from))
}

#[unsafe(no_mangle)]
pub extern "C" fn lepugaso_surface_read(
    file: &[u8],
    entry: u32,
    buf: &[u8],
    words: &mut [u32],
) -> Crossing
    ensures answer { result ≡ crossed (answer_of (read_call file.now entry buf.now words.old)) }
    ensures words { words.new ≡ contents_of words.old (read_call file.now entry buf.now words.old) }
{
    cross(lepugaso::read(file, entry, buf, words).map(u64::from))
}

// A good answer is the offset, and `size` the bytes there.
#[tactic(auto, using(crate::proofs::Viewed::targets))]
#[unsafe(no_mangle)]
pub extern "C" fn lepugaso_surface_view(
    file: &[u8],
    entry: u32,
    path: &[u32],
    buf: &[u8],
    size: &mut u64,
) -> Crossing
    ensures answer { result ≡ crossed (offset_of (view_call file.now entry path.now buf.now)) }
    ensures size { size.new ≡ size_out (view_call file.now entry path.now buf.now) size.old }
{
    match lepugaso::view_at(file, entry, path, buf) {
        Ok(t) => {
            *size = t.size as u64;
            cross(Ok(t.offset as u64))
        }
        Err(r) => cross(Err(r)),
    }
}

#[unsafe(no_mangle)]
pub extern "C" fn lepugaso_surface_set(
    file: &[u8],
    entry: u32,
    path: &[u32],
    words: &[u32],
    buf: &mut [u8],
) -> Crossing
    ensures answer { result ≡ crossed (answer_of (set_call file.now entry path.now words.now buf.old)) }
    ensures buffer { buf.new ≡ contents_of buf.old (set_call file.now entry path.now words.now buf.old) }
{
    cross(lepugaso::set(file, entry, path, words, buf).map(u64::from))
}

#[unsafe(no_mangle)]
pub extern "C" fn lepugaso_surface_extract_bits_i32(e: i32, offset: u32, count: u32) -> i32
    ensures { result ≡ signed_of (extracted_i32 (pattern_of e) offset count) }
{
    lepugaso::extract_bits_i32(e, offset, count)
}

#[unsafe(no_mangle)]
pub extern "C" fn lepugaso_surface_extract_bits_u32(e: u32, offset: u32, count: u32) -> u32
    ensures { result ≡ extracted_u32 e offset count }
{
    lepugaso::extract_bits_u32(e, offset, count)
}

#[unsafe(no_mangle)]
pub extern "C" fn lepugaso_surface_insert_bits_i32(
    e: i32,
    newbits: i32,
    offset: u32,
    count: u32,
) -> i32
    ensures { result ≡ signed_of (inserted (pattern_of e) (pattern_of newbits) offset count) }
{
    lepugaso::insert_bits_i32(e, newbits, offset, count)
}

#[unsafe(no_mangle)]
pub extern "C" fn lepugaso_surface_insert_bits_u32(
    e: u32,
    newbits: u32,
    offset: u32,
    count: u32,
) -> u32
    ensures { result ≡ inserted e newbits offset count }
{
    lepugaso::insert_bits_u32(e, newbits, offset, count)
}

#[unsafe(no_mangle)]
pub extern "C" fn lepugaso_surface_extract_bits(
    file: &[u8],
    entry: u32,
    path: &[u32],
    buf: &[u8],
    offset: u32,
    count: u32,
) -> Crossing
    ensures { result ≡ crossed (extract_call file.now entry path.now buf.now offset count) }
{
    cross(lepugaso::extract_bits(file, entry, path, buf, offset, count).map(u64::from))
}

#[unsafe(no_mangle)]
pub extern "C" fn lepugaso_surface_insert_bits(
    file: &[u8],
    entry: u32,
    path: &[u32],
    newbits: u32,
    offset: u32,
    count: u32,
    buf: &mut [u8],
) -> Crossing
    ensures answer { result ≡ crossed (answer_of (insert_call file.now entry path.now newbits offset count buf.old)) }
    ensures buffer { buf.new ≡ contents_of buf.old (insert_call file.now entry path.now newbits offset count buf.old) }
{
    cross(lepugaso::insert_bits(file, entry, path, newbits, offset, count, buf).map(u64::from))
}

#[unsafe(no_mangle)]
pub extern "C" fn lepugaso_surface_uniform(file: &[u8], entry: u32) -> Crossing
    ensures { result ≡ crossed (uniform_call file.now entry) }
{
    cross(lepugaso::uniform(file, entry).map(u64::from))
}

#[unsafe(no_mangle)]
pub extern "C" fn lepugaso_surface_to_form_2(file: &[u8], out: &mut [u8]) -> Crossing
    ensures answer { result ≡ crossed (answer_of (move_on_call file.now out.old)) }
    ensures out { out.new ≡ contents_of out.old (move_on_call file.now out.old) }
{
    cross(lepugaso::to_form_2(file, out).map(|length| length as u64))
}

#[unsafe(no_mangle)]
pub extern "C" fn lepugaso_surface_to_form_1(file: &[u8], out: &mut [u8]) -> Crossing
    ensures answer { result ≡ crossed (answer_of (move_back_call file.now out.old)) }
    ensures out { out.new ≡ contents_of out.old (move_back_call file.now out.old) }
{
    cross(lepugaso::to_form_1(file, out).map(|length| length as u64))
}

#[unsafe(no_mangle)]
pub extern "C" fn lepugaso_surface_site_inheriting(
    file: &[u8],
    entry: u32,
    mask: &mut u64,
) -> Crossing
    ensures answer { result ≡ crossed (zero_of (inheriting_call file.now entry)) }
    ensures mask { mask.new ≡ mask_after mask.old (inheriting_call file.now entry) }
{
    cross(lepugaso::site_inheriting(file, entry, mask).map(u64::from))
}

#[unsafe(no_mangle)]
pub extern "C" fn lepugaso_surface_site_fresh(
    file: &[u8],
    entry: u32,
    factory: &[u8],
    site: &mut [u8],
    mask: &mut u64,
) -> Crossing
    ensures answer { result ≡ crossed (site_answer (fresh_call file.now entry factory.now site.old)) }
    ensures site { site.new ≡ site_after site.old (fresh_call file.now entry factory.now site.old) }
    ensures mask { mask.new ≡ mask_set mask.old (fresh_call file.now entry factory.now site.old) }
{
    cross(lepugaso::site_fresh(file, entry, factory, site, mask).map(u64::from))
}

#[unsafe(no_mangle)]
pub extern "C" fn lepugaso_surface_site_clear(
    file: &[u8],
    entry: u32,
    member: u32,
    mask: &mut u64,
) -> Crossing
    ensures answer { result ≡ crossed (zero_of (clear_call file.now entry member mask.old)) }
    ensures mask { mask.new ≡ mask_after mask.old (clear_call file.now entry member mask.old) }
{
    cross(lepugaso::site_clear(file, entry, member, mask).map(u64::from))
}

// A good answer is the offset; `size` is the bytes there, and `shown` 1 if they are the site buffer's, else 0.
#[tactic(auto, using(crate::proofs::Viewed::targets))]
#[unsafe(no_mangle)]
pub extern "C" fn lepugaso_surface_site_member(
    file: &[u8],
    entry: u32,
    member: u32,
    mask: u64,
    factory: &[u8],
    site: &[u8],
    size: &mut u64,
    shown: &mut u64,
) -> Crossing
    ensures answer { result ≡ crossed (offset_of (member_call file.now entry member mask factory.now site.now)) }
    ensures size { size.new ≡ size_out (member_call file.now entry member mask factory.now site.now) size.old }
    ensures shown { shown.new ≡ site_out (member_call file.now entry member mask factory.now site.now) mask member shown.old }
{
    match lepugaso::site_member_at(file, entry, member, mask, factory, site) {
        Ok(t) => {
            *size = t.size as u64;
            *shown = u64::from(lepugaso::site_shows(mask, member));
            cross(Ok(t.offset as u64))
        }
        Err(r) => cross(Err(r)),
    }
}

#[unsafe(no_mangle)]
pub extern "C" fn lepugaso_surface_site_set(
    file: &[u8],
    entry: u32,
    member: u32,
    path: &[u32],
    words: &[u32],
    factory: &[u8],
    site: &mut [u8],
    mask: &mut u64,
) -> Crossing
    ensures answer { result ≡ crossed (site_answer (site_set_call file.now entry member path.now words.now mask.old factory.now site.old)) }
    ensures site { site.new ≡ site_after site.old (site_set_call file.now entry member path.now words.now mask.old factory.now site.old) }
    ensures mask { mask.new ≡ mask_set mask.old (site_set_call file.now entry member path.now words.now mask.old factory.now site.old) }
{
    cross(lepugaso::site_set(file, entry, member, path, words, factory, site, mask).map(u64::from))
}

// A good answer is how many bytes changed, and `first` the offset of the first.
#[tactic(auto, using(crate::proofs::Cleaned::gaps))]
#[unsafe(no_mangle)]
pub extern "C" fn lepugaso_surface_clean(
    file: &[u8],
    entry: u32,
    buf: &mut [u8],
    first: &mut u64,
) -> Crossing
    ensures answer { result ≡ crossed (changed_of (clean_call file.now entry buf.old)) }
    ensures buffer { buf.new ≡ clean_after buf.old (clean_call file.now entry buf.old) }
    ensures first { first.new ≡ first_after first.old (clean_call file.now entry buf.old) }
{
    match lepugaso::clean(file, entry, buf) {
        Ok(g) => {
            *first = u64::from(g.first);
            cross(Ok(u64::from(g.changed)))
        }
        Err(r) => cross(Err(r)),
    }
}

#[unsafe(no_mangle)]
pub extern "C" fn lepugaso_surface_plan_order(
    file: &[u8],
    entry: u32,
    order: &mut [u32],
) -> Crossing
    ensures answer { result ≡ crossed (answer_of (plan_call file.now entry order.old)) }
    ensures list { order.new ≡ contents_of order.old (plan_call file.now entry order.old) }
{
    cross(lepugaso::plan_order(file, entry, order).map(u64::from))
}

#[unsafe(no_mangle)]
pub extern "C" fn lepugaso_surface_check_order(file: &[u8], entry: u32, order: &[u32]) -> Crossing
    ensures { result ≡ crossed (order_call file.now entry order.now) }
{
    cross(lepugaso::check_order(file, entry, order).map(u64::from))
}

#[unsafe(no_mangle)]
pub extern "C" fn lepugaso_surface_convert(from: u32, bits: u64, to: u32) -> Crossing
    ensures { result ≡ crossed (convert_call from bits to) }
{
    cross(lepugaso::convert(from, bits, to))
}
