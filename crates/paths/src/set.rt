// `set`: one scalar at a path. Document 01's order is that of a view with 10, then 14, 16; since E6 14 also for a wrong number of words.
ghost use Rattle.std.specs.Prelude.{◌≡◌, List, ℕ, length};
ghost use Rattle.wgsl.specs.Path as path;
ghost use Rattle.wgsl.specs.Call.{answer_of, contents_of, set_call, set_target};
ghost use Rattle.said.specs.Answer.{said, Answered};
ghost use Rattle.paths.specs.Set.{InBuffer, fit_of};

use crate::locate::locate;
use file::kinds::is_scalar;
use numbers::bytes::{store_u16, store_u32};
use said::refusal::Refusal;
use said::target::Target;

// Whether words can be stored in the scalar `t`: 14, 16.
pub fn fit_scalar(t: Target, words: &[u32]) -> Result<(), Refusal>
    requires { (u : path.Target) × (bytes : ℕ) × InBuffer t u bytes }
    ensures { (u : path.Target) (bytes : ℕ) → InBuffer t u bytes → (b : List ℕ) → said result ≡ fit_of (set_target u words.now b) }
{
    if !is_scalar(t.scalar) {
        return Err(Refusal::Count);
    }
    if t.size == 8 {
        if words.len() != 2 {
            return Err(Refusal::Count);
        }
        return Ok(());
    }
    if words.len() != 1 {
        return Err(Refusal::Count);
    }
    if t.size == 2 {
        if 65535 < words[0] {
            return Err(Refusal::Word(0));
        }
    }
    Ok(())
}

// 14, 16, and the scalar's bytes: of eight the low word first.
pub fn set_scalar(t: Target, words: &[u32], buf: &mut [u8]) -> Result<u32, Refusal>
    requires { (u : path.Target) × InBuffer t u (length buf.old) }
    ensures { (u : path.Target) → InBuffer t u (length buf.old) → Answered (set_target u words.now buf.old) result buf.old buf.new }
{
    fit_scalar(t, words)?;
    let at = t.offset;
    match t.size {
        2 => store_u16(buf, at, words[0] as u16),
        8 => {
            store_u32(buf, at, words[0]);
            store_u32(buf, at + 4, words[1]);
        }
        _ => store_u32(buf, at, words[0]),
    }
    Ok(at as u32)
}

// Stores `words` in the one scalar that `path` leads to from entry `entry`, the lowest first; answers its offset. Every other byte stays.
// Refuses 1 to 7, 24 (file), 8, 17, 9 (no layout), 10, 15, 11 to 13 (the first bad step), 14 (no scalar, or not as many words as it takes), 16.
pub fn set(
    file: &[u8],
    entry: u32,
    path: &[u32],
    words: &[u32],
    buf: &mut [u8],
) -> Result<u32, Refusal>
    ensures answer { said result ≡ answer_of (set_call file.now entry path.now words.now buf.old) }
    ensures buffer { buf.new ≡ contents_of buf.old (set_call file.now entry path.now words.now buf.old) }
{
    let target = locate(file, entry, path, buf.len(), true)?;
    set_scalar(target, words, buf)
}
