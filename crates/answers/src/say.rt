// Answers as text.
ghost use Rattle.std.specs.Prelude.{◌≡◌, ◌*◌, ◌<◌, ◌≤◌, IsAscii, length};

use said::answer::{Gaps, Sizes};
use said::refusal::Refusal;
use said::target::Target;
use std::fmt::{self, Display};
use std::str;

// An answer: what it gives, or its refusal.
#[derive(Drop)]
pub struct Said<T>(pub Result<T, Refusal>);

impl<T: Display> Display for Said<T> {
    fn fmt<W: fmt::Write>(&self, f: &mut fmt::Formatter<W>) -> fmt::Result {
        match &self.0 {
            Ok(given) => write!(f, "{given}"),
            Err(refusal) => {
                let number = refusal.number();
                let place = refusal.place();
                write!(f, "refused {number} at {place}")
            }
        }
    }
}

// A number that may be absent.
#[derive(Drop)]
struct OrDash(Option<u32>);

impl Display for OrDash {
    fn fmt<W: fmt::Write>(&self, f: &mut fmt::Formatter<W>) -> fmt::Result {
        match self.0 {
            Some(number) => write!(f, "{number}"),
            None => write!(f, "-"),
        }
    }
}

// The four numbers of a layout.
#[derive(Clone, Copy)]
pub struct Four(pub Sizes);

impl Display for Four {
    fn fmt<W: fmt::Write>(&self, f: &mut fmt::Formatter<W>) -> fmt::Result {
        let size = OrDash(self.0.size);
        let align = OrDash(self.0.align);
        let min = OrDash(self.0.min);
        let stride = OrDash(self.0.stride);
        write!(f, "{size} {align} {min} {stride}")
    }
}

// What cleaning changed: how many bytes, and the offset of the first.
#[derive(Clone, Copy)]
pub struct Cleaned(pub Gaps);

impl Display for Cleaned {
    fn fmt<W: fmt::Write>(&self, f: &mut fmt::Formatter<W>) -> fmt::Result {
        let changed = self.0.changed;
        let first = self.0.first;
        write!(f, "{changed} {first}")
    }
}

// Where a path leads: its offset, and how many bytes it has.
#[derive(Clone, Copy)]
pub struct Place(pub Target);

impl Display for Place {
    fn fmt<W: fmt::Write>(&self, f: &mut fmt::Formatter<W>) -> fmt::Result {
        let offset = self.0.offset;
        let size = self.0.size;
        write!(f, "{offset} {size}")
    }
}

// Words, a space before each.
#[derive(Clone, Copy)]
pub struct Words<'a>(pub &'a [u32]);

impl Display for Words<'_> {
    fn fmt<W: fmt::Write>(&self, f: &mut fmt::Formatter<W>) -> fmt::Result {
        for word in self.0 {
            write!(f, " {word}")?;
        }
        Ok(())
    }
}

// What a buffer holds, after a space, if it holds anything.
#[derive(Clone, Copy)]
pub struct Bytes<'a>(pub &'a [u8]);

impl Display for Bytes<'_> {
    fn fmt<W: fmt::Write>(&self, f: &mut fmt::Formatter<W>) -> fmt::Result {
        if self.0.is_empty() {
            return Ok(());
        }
        write!(f, " ")?;
        for part in self.0.chunks(4_096) {
            let mut room = [0; 8_192];
            f.write_str(spell(part, &mut room))?;
        }
        Ok(())
    }
}

// Bytes as two hexadecimal digits each, put into a room for them: what is written is one text, since each write is a call of the system.
#[tactic(auto, using(crate::proofs::Ascii::front_utf8))]
fn spell<'a>(bytes: &[u8], room: &'a mut [u8]) -> &'a str
    requires room { 2 * length bytes.now ≤ length room.old }
    requires ascii { IsAscii room.old }
    ensures { length result.now ≡ 2 * length bytes.now }
{
    put_digits(bytes, room);
    let Ok(text) = str::from_utf8(&room[..2 * bytes.len()]) else {
        unreachable!();
    };
    text
}

fn put_digits(bytes: &[u8], room: &mut [u8])
    requires room { 2 * length bytes.now ≤ length room.old }
    requires ascii { IsAscii room.old }
    ensures ascii { IsAscii room.new }
    ensures len { length room.new ≡ length room.old }
{
    for (i, byte) in bytes.iter().enumerate() {
        room[2 * i] = digit(byte / 16);
        room[2 * i + 1] = digit(byte % 16);
    }
}

fn digit(n: u8) -> u8
    requires { n < 16 }
    ensures { result < 128 }
{
    if n < 10 { b'0' + n } else { b'a' - 10 + n }
}
