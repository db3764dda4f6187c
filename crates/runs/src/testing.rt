// Words before they go into bytes: whether they fit.
ghost use Rattle.std.specs.Prelude.{◌≡◌, ◌⊎◌, ℕ, ◌+◌, ◌<◌, ◌≤◌, length, get_or, MatchOption};
ghost use Rattle.runs.specs.Fold.{Tests};
ghost use Rattle.runs.specs.Run.{run_places};
ghost use Rattle.said.specs.Answer.{said};

use said::refusal::Refusal;

// The largest of `most` and of `n` words from word `k` on.
pub fn largest(words: &[u32], k: usize, n: usize, most: u32) -> u32
    requires { k + n ≤ length words.now }
    ensures { (most ≤ result) × ((i : ℕ) → i < n → get_or words.now (k + i) 0 ≤ result) }
{
    let mut largest = most;
    for word in &words[k..k + n] {
        largest = largest.max(*word);
    }
    largest
}

// The first of `n` words from word `k` on that does not fit into two bytes, counted from `k`.
fn first_past(words: &[u32], k: usize, n: usize) -> Option<usize>
    requires { k + n ≤ length words.now }
    ensures { MatchOption result ((i : ℕ) → i < n → get_or words.now (k + i) 0 < 65536) (λ i. (i < n) × (65536 ≤ get_or words.now (k + i) 0) × ((j : ℕ) → j < i → get_or words.now (k + j) 0 < 65536)) }
{
    words[k..k + n].iter().position(|word| *word > 65535)
}

// Whether `n` words from word `k` on fit into `width` bytes each: by the largest of them, and one by one only where that does not fit.
#[tactic(auto, using(crate::proofs::RunPlaces::run_passes, crate::proofs::RunPlaces::run_refused))]
pub fn scan_run(words: &[u32], k: usize, n: usize, width: usize) -> Result<(), Refusal>
    requires { ((width ≡ 2) ⊎ (width ≡ 4)) × (k + n ≤ length words.now) }
    ensures { Tests words.now (run_places n width 0) k (said result) }
{
    if width == 4 || largest(words, k, n, 0) <= 65535 {
        return Ok(());
    }
    match first_past(words, k, n) {
        Some(i) => Err(Refusal::Word(k + i)),
        None => Ok(()),
    }
}
