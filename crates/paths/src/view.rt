// `view` and `view_mut`: the bytes that a path leads to, as that part of the caller's own buffer.
ghost use Rattle.std.specs.Prelude.{◌≡◌, List, ℕ, length};
ghost use Rattle.wgsl.specs.Call.{view_call, part_of, part_start};
ghost use Rattle.said.specs.Target.{reached, after};
ghost use Rattle.paths.specs.View.{PartIs};
ghost use Rattle.said.specs.Answer.{said};

use crate::locate::locate;
use said::refusal::Refusal;
use said::target::Target;

// What `path` leads to from entry `entry`: its offset, its bytes and its scalar.
// Refuses 1 to 7, 24 (file), 8, 17, 9 (no layout), 15, then 11 to 13 (the first bad step).
pub fn view_at(file: &[u8], entry: u32, path: &[u32], buf: &[u8]) -> Result<Target, Refusal>
    ensures { said result ≡ reached (view_call file.now entry path.now buf.now) }
{
    locate(file, entry, path, buf.len(), false)
}

// A part of a buffer: the bytes from one place up to another.
#[derive(Clone, Copy)]
struct Part {
    from: usize,
    to: usize,
}

// The part that a view hands back of a buffer of so many bytes; where `view_at` refuses, the empty part at the start. It never sees the
// buffer.
fn part_at(file: &[u8], entry: u32, path: &[u32], bytes: usize) -> Part
    ensures { (b : List ℕ) → length b ≡ bytes → PartIs result (view_call file.now entry path.now b) b }
{
    // a match and no `?`: what is answered has no place for a refusal
    match locate(file, entry, path, bytes, false) {
        Ok(t) => Part {
            from: t.offset,
            to: t.offset + t.size,
        },
        Err(_) => Part { from: 0, to: 0 },
    }
}

// The bytes of what `path` leads to, as that part of the buffer; where `view_at` refuses, the empty part at its start.
pub fn view<'a>(file: &[u8], entry: u32, path: &[u32], buf: &'a [u8]) -> &'a [u8]
    ensures bytes { result.now ≡ part_of (view_call file.now entry path.now buf.now) buf.now }
    ensures place { result.ref_ptr ≡ after buf.entry.ref_ptr (part_start (view_call file.now entry path.now buf.now)) }
{
    let part = part_at(file, entry, path, buf.len());
    &buf[part.from..part.to]
}

// The same part, to be written.
pub fn view_mut<'a>(file: &[u8], entry: u32, path: &[u32], buf: &'a mut [u8]) -> &'a mut [u8]
    ensures bytes { result.now ≡ part_of (view_call file.now entry path.now buf.old) buf.old }
    ensures place { result.ref_ptr ≡ after buf.entry.ref_ptr (part_start (view_call file.now entry path.now buf.old)) }
{
    let part = part_at(file, entry, path, buf.len());
    &mut buf[part.from..part.to]
}
