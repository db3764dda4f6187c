// Words into bytes.
ghost use Rattle.std.specs.Prelude.{◌≡◌, ◌⊎◌, ◌+◌, ◌*◌, ◌≤◌, length};
ghost use Rattle.wgsl.specs.Number.{store};
ghost use Rattle.runs.specs.Fold.{Stores};
ghost use Rattle.runs.specs.Run.{run_places, part_places};
ghost use Rattle.runs.specs.Ask.{PartsRoom};

use crate::Parts;
use numbers::bytes::{store_u16, store_u32};

// Stores the `WIDTH` lowest bytes of `word` in those from `at` on.
#[tactic(auto, using(crate::proofs::RunPlaces::store_two, crate::proofs::RunPlaces::width_four))]
fn store_word<const WIDTH: usize>(buf: &mut [u8], at: usize, word: u32)
    requires { ((WIDTH ≡ 2) ⊎ (WIDTH ≡ 4)) × (at + WIDTH ≤ length buf.old) }
    ensures { buf.new ≡ store WIDTH buf.old at word }
{
    if WIDTH == 2 {
        store_u16(buf, at, (word % 65536) as u16);
    } else {
        store_u32(buf, at, word);
    }
}

// Stores `n` words, from word `k` on, in the bytes from `at` on, the `WIDTH` lowest bytes of each. Every other byte stays.
// By index: over an iterator of the words, a run of seven took 1.3 of the time.
#[tactic(auto, using(crate::proofs::RunPlaces::run_zero, crate::proofs::RunPlaces::run_more), unfolding(crate::specs::Fold::storing))]
fn write_words<const WIDTH: usize>(words: &[u32], k: usize, n: usize, buf: &mut [u8], at: usize)
    requires { ((WIDTH ≡ 2) ⊎ (WIDTH ≡ 4)) × (k + n ≤ length words.now) × (at + n * WIDTH ≤ length buf.old) }
    ensures { Stores words.now (run_places n WIDTH at) k buf.old buf.new }
{
    for i in 0..n {
        store_word::<WIDTH>(buf, at + i * WIDTH, words[k + i]);
    }
}

// Stores numbers of four bytes, one after the other. An array, so that all are read before the first is stored: the compiler, which cannot
// know that a store changes no word, then moves them together.
#[tactic(auto, using(crate::proofs::RunPlaces::run_zero, crate::proofs::RunPlaces::run_more), unfolding(crate::specs::Fold::storing))]
fn store_all<const N: usize>(buf: &mut [u8], at: usize, numbers: [u32; N])
    requires { at + N * 4 ≤ length buf.old }
    ensures { Stores numbers.entry (run_places N 4 at) 0 buf.old buf.new }
{
    for (i, number) in numbers.iter().enumerate() {
        store_u32(buf, at + i * 4, *number);
    }
}

// At most four words of four bytes: a vector or a column. Too short for a loop that is worth its start.
#[tactic(auto, unfolding(crate::specs::Fold::over_places, crate::specs::Fold::storing, crate::specs::Run::run_places, wgsl::specs::Place::repeated))]
pub fn write_few(words: &[u32], k: usize, n: usize, buf: &mut [u8], at: usize)
    requires { (n ≤ 4) × (k + n ≤ length words.now) × (at + n * 4 ≤ length buf.old) }
    ensures { Stores words.now (run_places n 4 at) k buf.old buf.new }
{
    match n {
        1 => store_all(buf, at, [words[k]]),
        2 => store_all(buf, at, [words[k], words[k + 1]]),
        3 => store_all(buf, at, [words[k], words[k + 1], words[k + 2]]),
        4 => store_all(
            buf,
            at,
            [words[k], words[k + 1], words[k + 2], words[k + 3]],
        ),
        _ => {}
    }
}

// Stores `n` words, from word `k` on, in the bytes from `at` on, `width` each.
pub fn write_run(words: &[u32], k: usize, n: usize, width: usize, buf: &mut [u8], at: usize)
    requires { ((width ≡ 2) ⊎ (width ≡ 4)) × (k + n ≤ length words.now) × (at + n * width ≤ length buf.old) }
    ensures { Stores words.now (run_places n width at) k buf.old buf.new }
{
    if width == 2 {
        write_words::<2>(words, k, n, buf, at);
    } else if n <= 4 {
        write_few(words, k, n, buf, at);
    } else {
        write_words::<4>(words, k, n, buf, at);
    }
}

// Stores the words from `k` on in parts from byte `at` on, one part after the other. Inlined: see `write_units`.
#[inline(always)]
#[tactic(auto, using(crate::proofs::RunPlaces::part_zero, crate::proofs::RunPlaces::part_more))]
fn write_each(words: &[u32], k: usize, p: Parts, buf: &mut [u8], at: usize)
    requires { PartsRoom p at (length buf.old) k (length words.now) }
    ensures { Stores words.now (part_places p.count p.unit p.width p.stride at) k buf.old buf.new }
{
    for i in 0..p.count {
        write_run(
            words,
            k + i * p.unit,
            p.unit,
            p.width,
            buf,
            at + i * p.stride,
        );
    }
}

// The same, with a loop of its own for each unit of at most four words: the compiler makes it, since all is inlined, where the unit is said
// outright here and the width where this is called.
#[inline(always)]
fn write_units(words: &[u32], k: usize, p: Parts, buf: &mut [u8], at: usize)
    requires { PartsRoom p at (length buf.old) k (length words.now) }
    ensures { Stores words.now (part_places p.count p.unit p.width p.stride at) k buf.old buf.new }
{
    match p.unit {
        1 => write_each(words, k, Parts { unit: 1, ..p }, buf, at),
        2 => write_each(words, k, Parts { unit: 2, ..p }, buf, at),
        3 => write_each(words, k, Parts { unit: 3, ..p }, buf, at),
        4 => write_each(words, k, Parts { unit: 4, ..p }, buf, at),
        _ => write_each(words, k, p, buf, at),
    }
}

// Stores the words from `k` on in parts from byte `at` on. Every byte that no word takes stays.
#[tactic(auto, using(crate::proofs::OverPlaces::parts_touch))]
pub fn write_parts(words: &[u32], k: usize, p: Parts, buf: &mut [u8], at: usize)
    requires { PartsRoom p at (length buf.old) k (length words.now) }
    ensures { Stores words.now (part_places p.count p.unit p.width p.stride at) k buf.old buf.new }
{
    if p.stride == p.unit * p.width {
        write_run(words, k, p.count * p.unit, p.width, buf, at);
    } else if p.width == 2 {
        write_units(words, k, Parts { width: 2, ..p }, buf, at);
    } else {
        write_units(words, k, Parts { width: 4, ..p }, buf, at);
    }
}
