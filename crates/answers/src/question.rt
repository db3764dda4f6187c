// The questions, and the lines that ask them (oracle/README.md).
use crate::blocks::Site;
use crate::change::Change;
use crate::held::{Held, copied};
use crate::lines::{MOST_NUMBERS, Part};
use crate::number::Number;
use crate::say::{Bytes, Cleaned, Four, Place, Said, Words};
use std::io::{self, Write};

// A bit field as it is asked for.
#[derive(Clone, Copy)]
pub struct Field {
    pub offset: u32,
    pub count: u32,
}

impl Field {
    pub fn of(offset: u32, count: u32) -> Field {
        Field { offset, count }
    }
}

// A number of 64 bits by its low and its high 32.
pub fn joined(low: u32, high: u32) -> u64 {
    u64::from(high) << 32 | u64::from(low)
}

#[derive(Clone, Copy)]
pub enum Question<'a> {
    Number(Number<'a>),
    Change(Change<'a>),
    Site(Site<'a>),
    Layout(u32),
    Clean(u32),
    // an entry and the steps
    View(u32, &'a [u32]),
    // an entry and what the words are before
    Read(u32, Part<'a>),
    // an entry and what the list is before
    PlanOrder(u32, Part<'a>),
}

impl<'a> Question<'a> {
    // The question of a word and the numbers after it; `None` where it is none.
    pub fn parse(word: &[u8], given: Part<'a>) -> Option<Question<'a>> {
        let numbers = given.numbers;
        let question = match (word, numbers) {
            (b"layout", [entry]) => Question::Layout(*entry),
            (b"clean", [entry]) => Question::Clean(*entry),
            (b"view", [entry, path @ ..]) => Question::View(*entry, path),
            (b"read", [entry, words @ ..]) => Question::Read(*entry, Part { numbers: words }),
            (b"plan_order", [entry, list @ ..]) => Question::PlanOrder(
                *entry,
                Part { numbers: list },
            ),
            _ => {
                return Number::parse(word, numbers)
                    .map(Question::Number)
                    .or_else(|| Change::parse(word, numbers).map(Question::Change))
                    .or_else(|| Site::parse(word, numbers).map(Question::Site));
            }
        };
        Some(question)
    }

    // Says the answer. What a question changes, a buffer, words or a list, it changes in a copy: what is held is as it was for the others.
    // Each such question has a function of its own, since a function clears all its arrays at its start.
    pub fn answer<W: Write>(self, out: &mut W, held: &Held) -> io::Result<()> {
        let file = held.file.bytes();
        let buffer = held.buffer.bytes();
        match self {
            Question::Number(asked) => {
                let answer = Said(asked.ask(file, buffer));
                writeln!(out, "{answer}")
            }
            Question::Change(asked) => asked.answer(out, held),
            Question::Site(asked) => asked.answer(out, held),
            Question::Layout(entry) => {
                let answer = Said(lepugaso::layout(file, entry).map(Four));
                writeln!(out, "{answer}")
            }
            Question::Clean(entry) => answer_clean(out, held, entry),
            Question::View(entry, path) => answer_view(out, held, entry, path),
            Question::Read(entry, words) => answer_read(out, held, entry, words),
            Question::PlanOrder(entry, list) => answer_plan(out, held, entry, list),
        }
    }
}

fn answer_clean<W: Write>(out: &mut W, held: &Held, entry: u32) -> io::Result<()> {
    let mut room = [0; 4_096];
    let copy = copied(held.buffer.bytes(), &mut room);
    let answer = Said(lepugaso::clean(held.file.bytes(), entry, copy).map(Cleaned));
    let bytes = Bytes(copy);
    writeln!(out, "{answer}{bytes}")
}

fn answer_read<W: Write>(out: &mut W, held: &Held, entry: u32, words: Part<'_>) -> io::Result<()> {
    let mut room = [0; MOST_NUMBERS];
    let copy = copied(words.numbers, &mut room);
    let buffer = held.buffer.bytes();
    let answer = Said(lepugaso::read(held.file.bytes(), entry, buffer, copy));
    let words = Words(copy);
    writeln!(out, "{answer}{words}")
}

fn answer_plan<W: Write>(out: &mut W, held: &Held, entry: u32, list: Part<'_>) -> io::Result<()> {
    let mut room = [0; MOST_NUMBERS];
    let copy = copied(list.numbers, &mut room);
    let answer = Said(lepugaso::plan_order(held.file.bytes(), entry, copy));
    let words = Words(copy);
    writeln!(out, "{answer}{words}")
}

// Says where a path leads, and the bytes that a view hands back; and puts the question to `view_mut` on a copy of the buffer, which is to
// hand back the same bytes and to leave the copy as it is.
fn answer_view<W: Write>(out: &mut W, held: &Held, entry: u32, path: &[u32]) -> io::Result<()> {
    let file = held.file.bytes();
    let buffer = held.buffer.bytes();
    let answer = Said(lepugaso::view_at(file, entry, path, buffer).map(Place));
    let part = lepugaso::view(file, entry, path, buffer);
    let mut room = [0; 4_096];
    let copy = copied(buffer, &mut room);
    let handed = lepugaso::view_mut(file, entry, path, copy);
    let alike = part == &handed[..];
    let changed = if alike && &*copy == buffer {
        ""
    } else {
        " changed"
    };
    let bytes = Bytes(part);
    writeln!(out, "{answer}{bytes}{changed}")
}
