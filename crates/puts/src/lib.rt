// Bytes put into a lent buffer, one part after the other.
#![tactic(auto)]

ghost use Rattle.std.specs.Prelude.{◌+◌, ◌≤◌, length};
ghost use Rattle.puts.specs.Put.{Put};

// Puts the text at `at` and answers where it ends; every other byte stays. Byte by byte: by `copy_from_slice` the archive wanted memmove
// from outside, and a board may have none.
#[tactic(auto, using(crate::proofs::PutLaws::left_all, crate::proofs::PutLaws::left_more, crate::proofs::PutLaws::left_none))]
pub fn put(out: &mut [u8], at: usize, text: &[u8]) -> usize
    requires { at + length text.now ≤ length out.old }
    ensures { Put out.old at text.now result out.new }
{
    for (i, byte) in text.iter().enumerate() {
        out[at + i] = *byte;
    }
    at + text.len()
}
