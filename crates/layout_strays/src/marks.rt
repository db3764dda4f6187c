// Members that are marked, a bit for each, 64 to a word.
ghost use Rattle.std.specs.Prelude.{◌≡◌, true, ◌&&◌, ◌||◌, List, ℕ, ◌+◌, ◌-◌, ◌*◌, ◌/◌, ◌%◌, ◌^◌, ◌<◌, ◌≤◌, leb, ltb, length};
ghost use Rattle.wgsl.specs.Said.{refuse};
ghost use Rattle.wgsl.specs.Rule.{all_named};
ghost use Rattle.layout_strays.specs.Strays.{mark_at, Marks};

const WORD: usize = 64;

const FULL: u64 = u64::MAX;

// So many bits, from bit `place` on.
fn span(place: usize, count: usize) -> u64
    requires { (0 < count) × (place + count ≤ 64) }
    ensures { result ≡ (2 ^ count - 1) * 2 ^ place }
{
    FULL >> (WORD - count) << place
}

// Marks the members from `from` on and below `to`, whose marks are in one word.
fn mark_in_word(named: &mut [u64], from: usize, to: usize)
    requires { (from < to) × (from % 64 + (to - from) ≤ 64) × (to ≤ 1024) × (length named.old ≡ 16) }
    ensures { (m : ℕ) → mark_at named.new m ≡ (mark_at named.old m || (leb from m && ltb m to)) }
{
    let w = from / WORD;
    named[w] |= span(from % WORD, to - from);
}

// Marks the members from `from` on and below `to`.
pub fn mark(named: &mut [u64], from: usize, to: usize)
    requires { (to ≤ 1024) × (length named.old ≡ 16) }
    ensures { (m : ℕ) → mark_at named.new m ≡ (mark_at named.old m || (leb from m && ltb m to)) }
{
    if to <= from {
        return;
    }
    let mut i = from;
    let mut next = i - i % WORD + WORD;
    while next < to {
        mark_in_word(named, i, next);
        i = next;
        next += WORD;
    }
    mark_in_word(named, i, to)
}

// How far members are marked, in full words.
fn full_to(named: &[u64], members: usize) -> usize
    requires { (members ≤ 1024) × (length named.now ≡ 16) }
    ensures { (result ≤ members) × ((m : ℕ) → m < result → mark_at named.now m ≡ true) }
{
    let mut m: usize = 0;
    while m < members {
        if named[m / WORD] != FULL {
            return m;
        }
        m += WORD;
    }
    members
}

// Whether member `m` is marked.
fn is_marked(named: &[u64], m: usize) -> bool
    requires { (m < 1024) × (length named.now ≡ 16) }
    ensures { result ≡ mark_at named.now m }
{
    named[m / WORD] >> (m % WORD) & 1 == 1
}

// The first of so many members that is not marked; if all are, as many as there are.
pub fn first_unmarked(named: &[u64], members: usize) -> usize
    requires { (members ≤ 1024) × (length named.now ≡ 16) }
    ensures { (f : List ℕ) (n : ℕ) → Marks f n members named.now → refuse 24 result (ltb result members) ≡ all_named f n members }
{
    for m in full_to(named, members)..members {
        if !is_marked(named, m) {
            return m;
        }
    }
    members
}
