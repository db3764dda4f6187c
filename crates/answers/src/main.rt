// Answers questions about layout files: reads them on standard input and writes a line for each (oracle/README.md, version 13).
#![tactic(auto)]

mod blocks;
mod change;
mod held;
mod lines;
mod number;
mod question;
mod say;

use crate::held::{Held, Room};
use crate::lines::{MOST_NUMBERS, numbers, split_word};
use crate::question::Question;
use std::io::{self, Write};

// Answers the question of a line.
fn answer_question<W: Write>(out: &mut W, held: &Held, word: &[u8], rest: &[u8]) -> io::Result<()> {
    let mut room = [0; MOST_NUMBERS];
    let question = numbers(rest, &mut room).and_then(|ns| Question::parse(word, ns));
    match question {
        Some(question) => question.answer(out, held),
        None => writeln!(out, "not a question"),
    }
}

// Takes the bytes of a line, or answers its question.
fn answer_line<W: Write>(out: &mut W, held: &mut Held, line: &[u8]) -> io::Result<()> {
    let (word, rest) = split_word(line);
    match word {
        b"file" => held.file.take(out, rest, b"not a file\n"),
        b"buffer" => held.buffer.take(out, rest, b"not a buffer\n"),
        b"factory" => held.factory.take(out, rest, b"not a factory\n"),
        _ => answer_question(out, held, word, rest),
    }
}

// Answers each line of a text whose first says that they are questions.
fn answer_all<W: Write>(out: &mut W, text: &[u8]) -> io::Result<()> {
    let mut lines = text.split_inclusive(|c| *c == b'\n');
    match lines.next() {
        Some(b"questions 13\n" | b"questions 13") => writeln!(out, "answers 13")?,
        _ => return writeln!(out, "not questions 13"),
    }
    let mut held = Held::new();
    for line in lines {
        let Some(line) = line.strip_suffix(b"\n") else {
            return writeln!(out, "not a line");
        };
        answer_line(out, &mut held, line)?;
    }
    Ok(())
}

// A run takes at most so many bytes. Nothing is allocated, so that no run ends for want of memory.
fn main(rt: HostRuntime) -> io::Result<()> {
    let mut text = Room::<1_048_576>::new();
    text.read(rt.stdin())?;
    answer_all(&mut rt.stdout(), text.bytes())
}
