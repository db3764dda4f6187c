// Words out of bytes. Each function has its twin in `writing`: one trait for both ways would want a struct and laws for each, which is more
// than these loops.
ghost use Rattle.std.specs.Prelude.{◌≡◌, ◌⊎◌, ◌+◌, ◌*◌, ◌≤◌, length};
ghost use Rattle.std.proofs.lemmas.List.Edits.{sets};
ghost use Rattle.wgsl.specs.Number.{load};
ghost use Rattle.runs.specs.Fold.{Loads};
ghost use Rattle.runs.specs.Run.{run_places, part_places};
ghost use Rattle.runs.specs.Ask.{PartsRoom};

use crate::Parts;
use numbers::bytes::{u16_at, u32_at};

// The word that the `WIDTH` bytes from `at` on hold.
fn load_word<const WIDTH: usize>(buf: &[u8], at: usize) -> u32
    requires { ((WIDTH ≡ 2) ⊎ (WIDTH ≡ 4)) × (at + WIDTH ≤ length buf.now) }
    ensures { result ≡ load WIDTH buf.now at }
{
    if WIDTH == 2 {
        u32::from(u16_at(buf, at))
    } else {
        u32_at(buf, at)
    }
}

// Puts `n` words of `WIDTH` bytes each, from byte `at` on, into the words from `k` on. Every other word stays.
#[tactic(auto, using(crate::proofs::RunPlaces::run_zero, crate::proofs::RunPlaces::run_more), unfolding(crate::specs::Fold::loading))]
fn read_words<const WIDTH: usize>(buf: &[u8], at: usize, n: usize, words: &mut [u32], k: usize)
    requires { ((WIDTH ≡ 2) ⊎ (WIDTH ≡ 4)) × (at + n * WIDTH ≤ length buf.now) × (k + n ≤ length words.old) }
    ensures { Loads buf.now (run_places n WIDTH at) k words.old words.new }
{
    for i in 0..n {
        words[k + i] = load_word::<WIDTH>(buf, at + i * WIDTH);
    }
}

// Puts numbers into the words from `k` on. An array, as in `store_all`; one by one, since `copy_from_slice` took twice the time in parts of
// two words.
#[tactic(auto, using(crate::proofs::RunPlaces::sets_more))]
fn put_all<const N: usize>(words: &mut [u32], k: usize, numbers: [u32; N])
    requires { k + N ≤ length words.old }
    ensures { words.new ≡ sets words.old k numbers.entry }
{
    for (i, number) in numbers.iter().enumerate() {
        words[k + i] = *number;
    }
}

// At most four words of four bytes.
#[tactic(auto, unfolding(crate::specs::Fold::over_places, crate::specs::Fold::loading, crate::specs::Run::run_places, wgsl::specs::Place::repeated))]
pub fn read_few(buf: &[u8], at: usize, n: usize, words: &mut [u32], k: usize)
    requires { (n ≤ 4) × (at + n * 4 ≤ length buf.now) × (k + n ≤ length words.old) }
    ensures { Loads buf.now (run_places n 4 at) k words.old words.new }
{
    match n {
        1 => put_all(words, k, [u32_at(buf, at)]),
        2 => put_all(words, k, [u32_at(buf, at), u32_at(buf, at + 4)]),
        3 => put_all(
            words,
            k,
            [u32_at(buf, at), u32_at(buf, at + 4), u32_at(buf, at + 8)],
        ),
        4 => put_all(
            words,
            k,
            [
                u32_at(buf, at),
                u32_at(buf, at + 4),
                u32_at(buf, at + 8),
                u32_at(buf, at + 12),
            ],
        ),
        _ => {}
    }
}

// Puts `n` words of `width` bytes each, from byte `at` on, into the words from `k` on.
pub fn read_run(buf: &[u8], at: usize, n: usize, width: usize, words: &mut [u32], k: usize)
    requires { ((width ≡ 2) ⊎ (width ≡ 4)) × (at + n * width ≤ length buf.now) × (k + n ≤ length words.old) }
    ensures { Loads buf.now (run_places n width at) k words.old words.new }
{
    if width == 2 {
        read_words::<2>(buf, at, n, words, k);
    } else if n <= 4 {
        read_few(buf, at, n, words, k);
    } else {
        read_words::<4>(buf, at, n, words, k);
    }
}

// Puts the words of parts from byte `at` on into the words from `k` on, one part after the other. Inlined: see `write_units`.
#[inline(always)]
#[tactic(auto, using(crate::proofs::RunPlaces::part_zero, crate::proofs::RunPlaces::part_more))]
fn read_each(buf: &[u8], at: usize, p: Parts, words: &mut [u32], k: usize)
    requires { PartsRoom p at (length buf.now) k (length words.old) }
    ensures { Loads buf.now (part_places p.count p.unit p.width p.stride at) k words.old words.new }
{
    for i in 0..p.count {
        read_run(
            buf,
            at + i * p.stride,
            p.unit,
            p.width,
            words,
            k + i * p.unit,
        );
    }
}

// The same, with a loop of its own for each unit of at most four words, as `write_units`.
#[inline(always)]
fn read_units(buf: &[u8], at: usize, p: Parts, words: &mut [u32], k: usize)
    requires { PartsRoom p at (length buf.now) k (length words.old) }
    ensures { Loads buf.now (part_places p.count p.unit p.width p.stride at) k words.old words.new }
{
    match p.unit {
        1 => read_each(buf, at, Parts { unit: 1, ..p }, words, k),
        2 => read_each(buf, at, Parts { unit: 2, ..p }, words, k),
        3 => read_each(buf, at, Parts { unit: 3, ..p }, words, k),
        4 => read_each(buf, at, Parts { unit: 4, ..p }, words, k),
        _ => read_each(buf, at, p, words, k),
    }
}

// Puts the words of parts from byte `at` on into the words from `k` on. Every other word stays.
#[tactic(auto, using(crate::proofs::OverPlaces::parts_touch))]
pub fn read_parts(buf: &[u8], at: usize, p: Parts, words: &mut [u32], k: usize)
    requires { PartsRoom p at (length buf.now) k (length words.old) }
    ensures { Loads buf.now (part_places p.count p.unit p.width p.stride at) k words.old words.new }
{
    if p.stride == p.unit * p.width {
        read_run(buf, at, p.count * p.unit, p.width, words, k);
    } else if p.width == 2 {
        read_units(buf, at, Parts { width: 2, ..p }, words, k);
    } else {
        read_units(buf, at, Parts { width: 4, ..p }, words, k);
    }
}
