// What the table holds of an entry: its value, or why it has none.
ghost use Rattle.std.specs.Prelude.{◌≡◌, true, ◌<◌, ◌≤◌, length};
ghost use Rattle.wgsl.specs.Types.{Ty, everywhere, is_open};
ghost use Rattle.wgsl.specs.Size.{present, own_stride_of};
ghost use Rattle.wgsl.specs.Rule.{is_well_formed};
ghost use Rattle.wgsl.specs.Round.{limit};
ghost use Rattle.layout_values.specs.Value.{value_of, words_in, value_at, blank_table, refusal_at};

use file::kinds::{RUNTIME, STRUCT};
use said::refusal::Refusal;

// The value of a type. A size, an alignment and a stride are above 0, and 0 stands for an absent one. Its parts are a vector's scalars,
// a matrix's columns, an array's elements; a scalar and an atomic are one part.
#[derive(Clone, Copy, Debug, Default, PartialEq, Eq)]
pub struct Value {
    pub kind: u32,
    // the fewest bytes that one of its words takes: 4, or 2 where it holds an f16; 0 where it holds what cannot be stored
    pub narrow: u32,
    // the entry that it refers to; of a struct the number of its first member
    pub reference: u32,
    // its parts; of a struct its members; of a runtime array 0
    pub count: u32,
    // the words of a part; of a struct all its words; 0 where it has no layout
    pub unit: u32,
    // from one part to the next; of a struct, from one member entry to the next
    pub stride: u32,
    pub size: u32,
    pub align: u32,
}

// Why an entry has no value: it breaks a rule (5), a given size or align does not fit (6), a number is too large (7).
#[derive(Clone, Copy, Debug, PartialEq, Eq)]
pub enum Broken {
    Rule,
    Given,
    Large,
}

impl Broken {
    // The refusal of entry `entry`.
    pub fn at(self, entry: usize) -> Refusal
        ensures { result ≡ refusal_at self entry }
    {
        match self {
            Broken::Rule => Refusal::Rule(entry),
            Broken::Given => Refusal::Given(entry),
            Broken::Large => Refusal::Large(entry),
        }
    }
}

// The table before it is filled.
pub fn blank() -> [Value; 256]
    ensures { result ≡ blank_table }
{
    [Value::default(); 256]
}

// The value of entry `e`.
#[tactic(auto, unfolding(crate::specs::Value::value_at))]
pub fn value_at(table: &[Value], e: usize) -> Value
    requires { e < length table.now }
    ensures { result ≡ value_at table.now e }
{
    table[e]
}

impl Value {
    // Whether a type is open: what has an alignment is open or has a size.
    pub fn opens(self) -> bool
        ensures { (t : Ty) → self ≡ value_of self.stride self.reference t → everywhere is_well_formed t ≡ true → result ≡ is_open t }
    {
        self.size == 0 && self.align != 0
    }

    // The stride of a type: its size rounded up to its alignment, of a runtime array its element's; 0 where it has none. Nothing is rounded:
    // every size is a multiple of the alignment, but for that of a vector of three, which is below it.
    pub fn own_stride(self) -> u32
        ensures { (t : Ty) → self ≡ value_of self.stride self.reference t → everywhere is_well_formed t ≡ true → result ≡ present (own_stride_of t) }
    {
        if self.kind == RUNTIME {
            return self.stride;
        }
        if self.size == 0 {
            return 0;
        }
        if self.align == 0 {
            return 0;
        }
        self.size.max(self.align)
    }

    // The words of a type, with no element of a runtime array; 0 where it has no layout.
    #[tactic(auto, unfolding(crate::specs::Value::words_in))]
    pub fn words(self) -> u32
        requires { words_in self ≤ limit }
        ensures { result ≡ words_in self }
    {
        if self.kind == STRUCT {
            return self.unit;
        }
        self.count * self.unit
    }
}
