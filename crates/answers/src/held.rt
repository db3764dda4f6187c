// What is held in fixed memory: the text of a run, and the bytes that lines said last, which the questions are about.
ghost use Rattle.std.specs.Prelude.{◌≡◌, ◌+◌, ◌<◌, ◌≤◌, length, take};

use crate::lines::byte;
use std::io::{self, Read, Write};

// The bytes of a text, a file or a buffer, none at first, and at most so many.
#[derive(Clone, Copy)]
pub struct Room<const MOST: usize> {
    bytes: [u8; MOST],
    count: usize,
    ghost within: { count ≤ MOST },
}

impl<const MOST: usize> Room<MOST> {
    pub fn new() -> Room<MOST>
        ensures { result.count ≡ 0 }
    {
        Room {
            bytes: [0; MOST],
            count: 0,
        }
    }

    pub fn bytes(&self) -> &[u8]
        ensures value { result.now ≡ take self.now.count self.now.bytes }
        ensures within { length result.now ≤ MOST }
    {
        &self.bytes[..self.count]
    }

    // Takes what comes from a reader, as much as there is room for.
    pub fn read<R: Read + Drop>(&mut self, from: R) -> io::Result<()> {
        let read = io::copy(&mut from.take(MOST as u64), &mut &mut self.bytes[..])?;
        self.count = MOST.min(read as usize);
        Ok(())
    }

    // Takes the bytes after a word in place of those that were there; spaces between bytes say nothing. Where something else comes, or
    // one too many, those before it stay, and the complaint is said, whole, since each write is a call of the system.
    pub fn take<W: Write>(&mut self, out: &mut W, rest: &[u8], complaint: &[u8]) -> io::Result<()> {
        self.count = 0;
        let mut left = rest;
        while let [first, tail @ ..] = left {
            if *first == b' ' {
                left = tail;
                continue;
            }
            let (pair, more) = left.split_at(left.len().min(2));
            match byte(pair) {
                Some(byte) if self.count < MOST => self.push(byte),
                _ => return out.write_all(complaint),
            }
            left = more;
        }
        Ok(())
    }

    fn push(&mut self, byte: u8)
        requires { self.old.count < MOST }
        ensures { self.new.count ≡ self.old.count + 1 }
    {
        self.bytes[self.count] = byte;
        self.count += 1;
    }
}

// A copy of items at the front of a room for them, to be changed.
pub fn copied<'a, T: Copy>(items: &[T], room: &'a mut [T]) -> &'a mut [T]
    requires { length items.now ≤ length room.old }
    ensures { result.now ≡ items.now }
{
    let copy = &mut room[..items.len()];
    copy.copy_from_slice(items);
    copy
}

// Of a site block `buffer` is the site buffer.
#[derive(Drop)]
pub struct Held {
    pub file: Room<65_536>,
    pub buffer: Room<4_096>,
    pub factory: Room<4_096>,
}

impl Held {
    pub fn new() -> Held {
        Held {
            file: Room::new(),
            buffer: Room::new(),
            factory: Room::new(),
        }
    }
}
