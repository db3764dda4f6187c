// One member entry of a struct: its flags, tested by masks, and the rules 5 and 6 for it.
#![tactic(auto)]

ghost use Rattle.std.specs.Prelude.{◌≡◌, true};
ghost use Rattle.wgsl.specs.Types.{Ty, everywhere};
ghost use Rattle.wgsl.specs.File.{size_is_given, align_is_given, given_size, given_align, rest_is_zero};
ghost use Rattle.wgsl.specs.Rule.{member_allowed, given_size_fits, given_align_fits, is_well_formed};
ghost use Rattle.file.specs.Fields.{member_is};
ghost use Rattle.layout_values.specs.Value.{value_of};
ghost use Rattle.layout_members.specs.Given.{or_own};

use file::fields::MemberEntry;
use file::kinds::RUNTIME;
use layout_values::value::Value;
use numbers::power::is_power;

// "Flag bit 0 says a size is given"
pub fn size_given(m: MemberEntry) -> bool
    ensures { result ≡ size_is_given (member_is m) }
{
    m.flags & 1 == 1
}

// "bit 1 an align"
pub fn align_given(m: MemberEntry) -> bool
    ensures { result ≡ align_is_given (member_is m) }
{
    m.flags & 2 == 2
}

// "other bits and fields not given are zero"
pub fn rest_is_zero(m: MemberEntry) -> bool
    ensures { result ≡ rest_is_zero (member_is m) }
{
    if m.flags & 0xffff_fffc != 0 {
        return false;
    }
    if !size_given(m) {
        if m.size != 0 {
            return false;
        }
    }
    if align_given(m) {
        return true;
    }
    m.align == 0
}

// "A member type has size and alignment, except that the last may be a runtime array."
pub fn is_allowed(l: Value, last: bool) -> bool
    ensures { (t : Ty) → l ≡ value_of l.stride l.reference t → everywhere is_well_formed t ≡ true → result ≡ member_allowed last t }
{
    if l.align == 0 {
        return false;
    }
    if l.size != 0 {
        return true;
    }
    if last {
        return l.kind == RUNTIME;
    }
    false
}

// "A given size is at least the type's size and never stands on a runtime array."
pub fn size_fits(m: MemberEntry, l: Value) -> bool
    ensures { (t : Ty) → l ≡ value_of l.stride l.reference t → everywhere is_well_formed t ≡ true → result ≡ given_size_fits t (given_size (member_is m)) }
{
    if !size_given(m) {
        return true;
    }
    if l.kind == RUNTIME {
        return false;
    }
    l.size <= m.size
}

// "A given align is a power of two and a multiple of the type's alignment." That is one too, so a power of two is a
// multiple of it if it is not below it.
pub fn align_fits(m: MemberEntry, l: Value) -> bool
    ensures { (t : Ty) → l ≡ value_of l.stride l.reference t → everywhere is_well_formed t ≡ true → result ≡ given_align_fits t (given_align (member_is m)) }
{
    if !align_given(m) {
        return true;
    }
    if !is_power(m.align) {
        return false;
    }
    l.align <= m.align
}

// The align that a member has: the one given, or else its type's own.
#[tactic(auto, unfolding(crate::specs::Given::or_own, wgsl::specs::Size::given_or, wgsl::specs::Size::present, wgsl::specs::File::given_align))]
pub fn given_align(m: MemberEntry, own: u32) -> u32
    ensures { result ≡ or_own (given_align (member_is m)) own }
{
    if align_given(m) { m.align } else { own }
}

// The size that it has, likewise.
#[tactic(auto, unfolding(crate::specs::Given::or_own, wgsl::specs::Size::given_or, wgsl::specs::Size::present, wgsl::specs::File::given_size))]
pub fn given_size(m: MemberEntry, own: u32) -> u32
    ensures { result ≡ or_own (given_size (member_is m)) own }
{
    if size_given(m) { m.size } else { own }
}
