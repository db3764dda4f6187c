// The refusals of documents 01 and 02, by name. Their numbers and places are a definition (specs/Refusal).
ghost use Rattle.std.specs.Prelude.{◌≡◌, ◌%◌, ◌^◌};
ghost use Rattle.said.specs.Refusal.{number_of, place_of};

#[derive(Clone, Copy, Debug, PartialEq, Eq)]
pub enum Refusal {
    // 1 to 4: the file below 10 bytes, its form, its counts, its length
    Short,
    Form,
    Counts,
    Length,
    // 5 to 7, with the entry: a rule, a given size or align, a number too large
    Rule(usize),
    Given(usize),
    Large(usize),
    // 8: no such entry
    Missing,
    // 9: a number that is absent, or no layout
    Absent,
    // 10: not storable
    Unstorable,
    // 11 to 13, with the step: no such member, an index not below the count, an index where there are no parts
    NoMember(usize),
    PastEnd(usize),
    NoIndex(usize),
    // 14: the wrong number of words, or too few
    Count,
    // 15: a buffer that is too short
    Buffer,
    // 16, with its position: a word that an f16 cannot hold
    Word(usize),
    // 17: a buffer that is too long
    Long,
    // 18: no rank, no common type, or an empty list
    NoRank,
    // 19, with the entry: one that breaks a rule of the uniform profile
    NotUniform(usize),
    // 20: a name that is not 0
    Named,
    // 21: no struct of fixed size and at most 64 members, or mask bits beyond them
    NoSite,
    // 23: an order of members that is not accepted
    NoOrder,
    // 24, with the member: one that no struct names
    Stray(usize),
    // 25: no such conversion of literals, or no finite result
    NoConversion,
}

impl Refusal {
    // The papers' number.
    pub fn number(self) -> u32
        ensures { result ≡ number_of self }
    {
        match self {
            Refusal::Short => 1,
            Refusal::Form => 2,
            Refusal::Counts => 3,
            Refusal::Length => 4,
            Refusal::Rule(_) => 5,
            Refusal::Given(_) => 6,
            Refusal::Large(_) => 7,
            Refusal::Missing => 8,
            Refusal::Absent => 9,
            Refusal::Unstorable => 10,
            Refusal::NoMember(_) => 11,
            Refusal::PastEnd(_) => 12,
            Refusal::NoIndex(_) => 13,
            Refusal::Count => 14,
            Refusal::Buffer => 15,
            Refusal::Word(_) => 16,
            Refusal::Long => 17,
            Refusal::NoRank => 18,
            Refusal::NotUniform(_) => 19,
            Refusal::Named => 20,
            Refusal::NoSite => 21,
            Refusal::NoOrder => 23,
            Refusal::Stray(_) => 24,
            Refusal::NoConversion => 25,
        }
    }

    // The lowest 32 bits of its place; 0 where it has none. Places are entries, below 256, members, below 1,024, positions of steps, and positions of
    // words, below 2^31. A path leads at most once through each entry, and then to a column and to its scalar, so that no bad step's position is above 256.
    pub fn place(self) -> u32
        ensures { result ≡ place_of self % 2 ^ 32 }
    {
        match self {
            Refusal::Rule(k)
            | Refusal::Given(k)
            | Refusal::Large(k)
            | Refusal::NoMember(k)
            | Refusal::PastEnd(k)
            | Refusal::NoIndex(k)
            | Refusal::Word(k)
            | Refusal::NotUniform(k)
            | Refusal::Stray(k) => (k % 0x1_0000_0000) as u32,
            _ => 0,
        }
    }
}
