// The public calls, in one place. None has a `requires`: any bytes of any length and any numbers are answered. Most answer a number or a
// refusal, `Result<u32, Refusal>`; but `layout` all four numbers of an entry (`Result<Sizes, Refusal>`), `view_at` and `site_member_at` a
// target (`Result<Target, Refusal>`), the two moves a length (`Result<usize, Refusal>`), `convert` a pattern (`Result<u64, Refusal>`) and
// `clean` what it changed (`Result<Gaps, Refusal>`). The views and `site_member` hand back a part of a buffer that they were lent,
// `site_shows` says yes or no, and the four calls on numbers alone answer a number. The refusals of each stand over it; whatever takes a
// file gives 24 besides, after 1 to 7.
#![tactic(auto)]

// How many entries an accepted file has; else 1 to 7.
pub use layout_ask::check;
// The size, the alignment and the minimum size of an entry's type; else 1 to 9.
pub use layout_ask::{align, min_size, size};
// These and the stride, absent ones marked; else 1 to 8.
pub use layout_ask::layout;
// The rank of one entry's type to another's, and the common type of a list of entries; else 1 to 8, 18.
pub use convert_ask::{common, rank};
// A literal of one kind as one of another: its pattern; else 25.
pub use literals::convert;
// The words of an entry into a buffer (the byte count), and out of one (the word count); else 1 to 10, 14 to 17.
pub use words::reading::read;
pub use words::writing::write;
// The gaps of an entry in a buffer become zero (how many bytes changed, and the first of them); else 1 to 10, 15, 17.
pub use gaps::clean;
// What a path leads to (its offset, its bytes and its scalar); the same as that part of the buffer, to be read or to be written; else 1
// to 9, 11 to 13, 15, 17.
pub use paths::view::{view, view_at, view_mut};
// One scalar at a path (its offset); else 1 to 17.
pub use paths::set::set;
// WGSL's extractBits and insertBits, on any numbers.
pub use bits::{extract_bits_i32, extract_bits_u32, insert_bits_i32, insert_bits_u32};
// The same of one i32 or u32 at a path: its field as a word, and its offset; else 1 to 15, 17.
pub use paths::field::{extract_bits, insert_bits};
// The order of a struct's members by falling alignment, into a list (how many); else 1 to 9, 14. Whether its members may stand in an order
// (where it then ends); else 1 to 9, 23.
pub use orders::check::check_order;
pub use orders::plan::plan_order;
// Whether an entry may live in a uniform buffer (0); else 1 to 10, 19.
pub use uniform::uniform;
// A file in the other form, into a buffer (its length there); else 1 to 7, 15, and 20 on the way back.
pub use forms::{to_form_1, to_form_2};
// A factory sheet and a site block of one struct: an inheriting block's mask, a fresh block, where a member lies, whether the site buffer
// shows it, its bytes in the buffer that does, a scalar set on site, a member cleared; else 1 to 17, 21.
pub use site::clear::clear as site_clear;
pub use site::mask::is_set as site_shows;
pub use site::member::{member as site_member, member_at as site_member_at};
pub use site::set::set as site_set;
pub use site::start::{fresh as site_fresh, inheriting as site_inheriting};
