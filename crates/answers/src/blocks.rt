// The questions about a site block.
use crate::held::{Held, copied};
use crate::question::joined;
use crate::say::{Bytes, Place, Said};
use said::refusal::Refusal;
use std::io::{self, Write};

// What is asked of a block of an entry, whose mask is this before.
#[derive(Clone, Copy)]
pub struct Site<'a> {
    entry: u32,
    mask: u64,
    asked: Asked<'a>,
}

#[derive(Clone, Copy)]
enum Asked<'a> {
    // which buffer shows a member, and where
    Member(u32),
    Inheriting,
    Fresh,
    // a member
    Clear(u32),
    // a member, the words and the steps
    Set(u32, &'a [u32], &'a [u32]),
}

impl<'a> Site<'a> {
    fn of(entry: u32, low: u32, high: u32, asked: Asked<'a>) -> Site<'a> {
        let mask = joined(low, high);
        Site { entry, mask, asked }
    }

    // The question of a word and the numbers after it; `None` where it is none of these.
    pub fn parse(word: &[u8], numbers: &'a [u32]) -> Option<Site<'a>> {
        let site = match (word, numbers) {
            (b"site_inheriting", [entry, low, high]) => {
                Site::of(*entry, *low, *high, Asked::Inheriting)
            }
            (b"site_fresh", [entry, low, high]) => Site::of(*entry, *low, *high, Asked::Fresh),
            (b"site_clear", [entry, member, low, high]) => {
                Site::of(*entry, *low, *high, Asked::Clear(*member))
            }
            (b"site_member", [entry, member, low, high]) => {
                Site::of(*entry, *low, *high, Asked::Member(*member))
            }
            (b"site_set", [entry, member, low, high, count, rest @ ..]) => {
                let (words, path) = rest.split_at_checked(*count as usize)?;
                Site::of(*entry, *low, *high, Asked::Set(*member, words, path))
            }
            _ => return None,
        };
        Some(site)
    }

    // Says where a member lies, which buffer shows it, and its bytes there.
    fn answer_member<W: Write>(self, out: &mut W, held: &Held, member: u32) -> io::Result<()> {
        let entry = self.entry;
        let mask = self.mask;
        let file = held.file.bytes();
        let factory = held.factory.bytes();
        let site = held.buffer.bytes();
        let target = lepugaso::site_member_at(file, entry, member, mask, factory, site);
        let whose = match target {
            Ok(_) if lepugaso::site_shows(mask, member) => " site",
            Ok(_) => " factory",
            Err(_) => "",
        };
        let answer = Said(target.map(Place));
        let part = lepugaso::site_member(file, entry, member, mask, factory, site);
        let bytes = Bytes(part);
        writeln!(out, "{answer}{whose}{bytes}")
    }

    // Makes a fresh block in a copy of the site buffer.
    fn answer_fresh<W: Write>(self, out: &mut W, held: &Held) -> io::Result<()> {
        let file = held.file.bytes();
        let factory = held.factory.bytes();
        let mut mask = self.mask;
        let mut room = [0; 4_096];
        let site = copied(held.buffer.bytes(), &mut room);
        let answer = lepugaso::site_fresh(file, self.entry, factory, site, &mut mask);
        say_block(out, answer, mask, site)
    }

    // Sets a scalar in a member in a copy of the site buffer.
    fn answer_set<W: Write>(
        self,
        out: &mut W,
        held: &Held,
        member: u32,
        words: &[u32],
        path: &[u32],
    ) -> io::Result<()> {
        let entry = self.entry;
        let file = held.file.bytes();
        let factory = held.factory.bytes();
        let mut mask = self.mask;
        let mut room = [0; 4_096];
        let site = copied(held.buffer.bytes(), &mut room);
        let answer = lepugaso::site_set(file, entry, member, path, words, factory, site, &mut mask);
        say_block(out, answer, mask, site)
    }

    // The mask and the site buffer change in copies, and are said after the answer; the buffer is where it may change.
    pub fn answer<W: Write>(self, out: &mut W, held: &Held) -> io::Result<()> {
        let entry = self.entry;
        let file = held.file.bytes();
        let mut mask = self.mask;
        match self.asked {
            Asked::Member(member) => self.answer_member(out, held, member),
            Asked::Inheriting => {
                let answer = lepugaso::site_inheriting(file, entry, &mut mask);
                say_block(out, answer, mask, b"")
            }
            Asked::Clear(member) => {
                let answer = lepugaso::site_clear(file, entry, member, &mut mask);
                say_block(out, answer, mask, b"")
            }
            Asked::Fresh => self.answer_fresh(out, held),
            Asked::Set(member, words, path) => self.answer_set(out, held, member, words, path),
        }
    }
}

// Says an answer, and the mask and what a buffer holds after it.
fn say_block<W: Write>(
    out: &mut W,
    answer: Result<u32, Refusal>,
    mask: u64,
    buffer: &[u8],
) -> io::Result<()> {
    let answer = Said(answer);
    let bytes = Bytes(buffer);
    writeln!(out, "{answer} {mask}{bytes}")
}
