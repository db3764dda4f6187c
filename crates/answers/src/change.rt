// The questions that change a buffer, and are answered by a number and what the buffer holds then.
use crate::held::{Held, copied};
use crate::question::Field;
use crate::say::{Bytes, Said};
use said::refusal::Refusal;
use std::io::{self, Write};

#[derive(Clone, Copy)]
pub enum Change<'a> {
    // an entry and the words
    Write(u32, &'a [u32]),
    // an entry, the words and the steps
    Set(u32, &'a [u32], &'a [u32]),
    // an entry, the new value, the field and the steps
    Insert(u32, u32, Field, &'a [u32]),
    ToForm1,
    ToForm2,
}

impl<'a> Change<'a> {
    // The question of a word and the numbers after it; `None` where it is none of these.
    pub fn parse(word: &[u8], numbers: &'a [u32]) -> Option<Change<'a>> {
        let asked = match (word, numbers) {
            (b"write", [entry, words @ ..]) => Change::Write(*entry, words),
            (b"set", [entry, count, rest @ ..]) => {
                let (words, path) = rest.split_at_checked(*count as usize)?;
                Change::Set(*entry, words, path)
            }
            (b"insert", [entry, new, offset, count, path @ ..]) => {
                Change::Insert(*entry, *new, Field::of(*offset, *count), path)
            }
            (b"to_form_1", []) => Change::ToForm1,
            (b"to_form_2", []) => Change::ToForm2,
            _ => return None,
        };
        Some(asked)
    }

    // Says the answer, and what a copy of the buffer holds then.
    pub fn answer<W: Write>(self, out: &mut W, held: &Held) -> io::Result<()> {
        let mut room = [0; 4_096];
        let copy = copied(held.buffer.bytes(), &mut room);
        let answer = Said(self.ask(held.file.bytes(), copy));
        let bytes = Bytes(copy);
        writeln!(out, "{answer}{bytes}")
    }

    fn ask(self, file: &[u8], buffer: &mut [u8]) -> Result<u64, Refusal> {
        match self {
            Change::Write(entry, words) => {
                lepugaso::write(file, entry, words, buffer).map(u64::from)
            }
            Change::Set(entry, words, path) => {
                lepugaso::set(file, entry, path, words, buffer).map(u64::from)
            }
            Change::Insert(entry, new, Field { offset, count }, path) => {
                lepugaso::insert_bits(file, entry, path, new, offset, count, buffer).map(u64::from)
            }
            Change::ToForm1 => lepugaso::to_form_1(file, buffer).map(|length| length as u64),
            Change::ToForm2 => lepugaso::to_form_2(file, buffer).map(|length| length as u64),
        }
    }
}
