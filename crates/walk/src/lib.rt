// The one walk over an entry's words by the table, whatever is done with them: an entry part by part, a struct member by member; the elements
// of an array by their pieces, where they are few. Entry numbers fall. The list of pieces is lent down the walk, so that it is on the stack once.
#![tactic(auto)]

ghost use Rattle.std.specs.Prelude.{◌≡◌, List, ℕ, ◌+◌, ◌*◌, ◌≤◌};
ghost use Rattle.wgsl.specs.Place.{Place, Shape, repeated, places_of};
ghost use Rattle.wgsl.specs.Types.{struct_kind};
ghost use Rattle.runs.specs.Run.{run_places, part_places};
ghost use Rattle.runs.specs.Ask.{PartsRoom};
ghost use Rattle.layout_values.specs.Value.{value_at};
ghost use Rattle.walk_trees.specs.Slot.{slot_at};
ghost use Rattle.walk_trees.specs.Tree.{Many, Tree, Room, MemberRoom, OfMember};
ghost use Rattle.walk_pieces.specs.Piece.{pieces_places, EachPieces};
ghost use Rattle.walk.specs.Visitor.{Counts, VisitorLaws};

use file::kinds::STRUCT;
use layout_values::value::{Value, value_at};
use runs::Parts;
use walk_pieces::{MOST, Pieces, pieces_of};
use walk_trees::{Series, Slot, packed, parts_of, slot_after};

// What is done with the words at their places.
pub trait Visitor {
    // having passed these places, the first with this word, one is the other
    ghost passes: { List Place → ℕ → Self → Self → Type 0 };

    // how many bytes and words there are
    ghost bytes: { Self → ℕ };

    ghost words: { Self → ℕ };

    ghost laws: { VisitorLaws passes bytes words };

    // Passes at most four words of four bytes, from byte `at` and word `k` on: a scalar or a vector.
    fn pass_few(&mut self, at: usize, k: usize, n: usize)
        requires { (n ≤ 4) × (at + n * 4 ≤ bytes self.old) × (k + n ≤ words self.old) }
        ensures { passes (run_places n 4 at) k self.old self.new };

    // Passes parts from byte `at` and word `k` on.
    fn pass_parts(&mut self, at: usize, k: usize, p: Parts)
        requires { PartsRoom p at (bytes self.old) k (words self.old) }
        ensures { passes (part_places p.count p.unit p.width p.stride at) k self.old self.new };

    // Passes the elements of `p`, of `few` pieces each, from byte `at` and word `k` on.
    fn pass_each(&mut self, at: usize, k: usize, pieces: &Pieces, few: usize, p: Series)
        requires { EachPieces few pieces.now p.count p.unit p.stride at (bytes self.old) k (words self.old) }
        ensures { passes (repeated p.count p.stride (λ q. pieces_places few pieces.now q) at) k self.old self.new };
}

// Takes a visitor to the words of entry `e`, which begins at byte `at`, from word `k` on.
#[cycle(visit_entry_visit_many_visit_member_visit_struct)]
pub fn visit_entry<V: Visitor>(
    members: &[u8],
    table: &[Value],
    e: usize,
    at: usize,
    k: usize,
    v: &mut V,
    pieces: &mut Pieces,
)
    requires { ((x : Shape) × Tree members.now table.now e x × Room x at (V.bytes v.old) k (V.words v.old)) × Counts (V.bytes v.old) (V.words v.old) }
    ensures { (x : Shape) → Tree members.now table.now e x → V.passes (places_of x at) k v.old v.new }
{
    let r = value_at(table, e);
    if r.kind == STRUCT {
        visit_struct(members, table, e, r, at, k, v, pieces);
        return;
    }
    visit_many(members, table, r, at, k, v, pieces);
}

// Takes it to parts as the value `r` says: to runs at once, to others by their pieces or to each by its entry.
#[cycle(visit_entry_visit_many_visit_member_visit_struct)]
pub fn visit_many<V: Visitor>(
    members: &[u8],
    table: &[Value],
    r: Value,
    at: usize,
    k: usize,
    v: &mut V,
    pieces: &mut Pieces,
)
    requires { ((x : Shape) × Many members.now table.now r x × Room x at (V.bytes v.old) k (V.words v.old)) × Counts (V.bytes v.old) (V.words v.old) }
    ensures { (x : Shape) → Many members.now table.now r x → V.passes (places_of x at) k v.old v.new }
{
    // the tail of what is not open
    if r.count == 0 {
        return;
    }
    let p = parts_of(table, r);
    if p.width != 0 {
        v.pass_parts(at, k, p);
        return;
    }
    let q = Series::from(r);
    let element = r.reference as usize;
    let few = pieces_of(members, table, element, q.count, pieces);
    if few <= MOST {
        v.pass_each(at, k, pieces, few, q);
        return;
    }
    for i in 0..q.count {
        visit_entry(
            members,
            table,
            element,
            at + i * q.stride,
            k + i * q.unit,
            v,
            pieces,
        );
    }
}

// Takes it to a struct member by member.
#[cycle(visit_entry_visit_many_visit_member_visit_struct)]
fn visit_struct<V: Visitor>(
    members: &[u8],
    table: &[Value],
    e: usize,
    r: Value,
    at: usize,
    k: usize,
    v: &mut V,
    pieces: &mut Pieces,
)
    requires { ((x : Shape) × Tree members.now table.now e x × (r ≡ value_at table.now e) × (r.kind ≡ struct_kind) × Room x at (V.bytes v.old) k (V.words v.old)) × Counts (V.bytes v.old) (V.words v.old) }
    ensures { (x : Shape) → Tree members.now table.now e x → V.passes (places_of x at) k v.old v.new }
{
    let length = r.stride as usize;
    let first = r.reference as usize * length;
    let mut end = 0;
    let mut next = k;
    for i in 0..r.count as usize {
        let p = visit_member(members, table, first + length * i, end, at, next, v, pieces);
        end = p.end;
        next += p.words;
    }
}

// Takes it to member `m` of a struct that begins at `at`, where the one before it ended at `end`; answers its place.
// Inlined, so that the place stays in registers: as a call of its own, entries of more than 32 pieces took 1.3 of the time.
#[inline(always)]
#[cycle(visit_entry_visit_many_visit_member_visit_struct)]
fn visit_member<V: Visitor>(
    members: &[u8],
    table: &[Value],
    m: usize,
    end: usize,
    at: usize,
    k: usize,
    v: &mut V,
    pieces: &mut Pieces,
) -> Slot
    requires { ((y : Shape) × MemberRoom members.now table.now m end y at (V.bytes v.old) k (V.words v.old)) × Counts (V.bytes v.old) (V.words v.old) }
    ensures placed { result ≡ slot_at members.now table.now m end }
    ensures passed { OfMember members.now table.now m end at (λ ps. V.passes ps k v.old v.new) }
{
    let p = slot_after(members, table, m, end);
    let r = value_at(table, p.ty);
    // words of four bytes without a gap: a scalar or a vector, most often
    if packed(r) == 4 {
        if p.words <= 4 {
            v.pass_few(at + p.start, k, p.words);
            return p;
        }
        let run = Parts {
            count: 1,
            unit: p.words,
            width: 4,
            stride: p.words * 4,
        };
        v.pass_parts(at + p.start, k, run);
        return p;
    }
    visit_entry(members, table, p.ty, at + p.start, k, v, pieces);
    p
}
