// A line of questions: its word, its numbers, its bytes.
ghost use Rattle.std.specs.Prelude.{◌≡◌, ◌<◌, ◌≤◌, ◌++◌, IfSome, length};

// A line has at most so many numbers.
pub const MOST_NUMBERS: usize = 1_024;

// Numbers of a line, all or a part of them.
#[derive(Clone, Copy)]
pub struct Part<'a> {
    pub numbers: &'a [u32],
    ghost within: { length numbers.now ≤ 1024 },
}

// The word of a line, and what comes after it: nothing, or a space and more.
pub fn split_word(line: &[u8]) -> (&[u8], &[u8])
    ensures { result.0.now ++ result.1.now ≡ line.now }
{
    let end = line.iter().position(|c| *c == b' ').unwrap_or(line.len());
    line.split_at(end)
}

// The value of a hexadecimal digit. No letter is a capital.
fn digit(c: u8) -> Option<u8>
    ensures { IfSome result (λ d. d < 16) }
{
    match c {
        b'0'..=b'9' => Some(c - b'0'),
        b'a'..=b'f' => Some(c - b'a' + 10),
        _ => None,
    }
}

// The byte of two digits.
pub fn byte(pair: &[u8]) -> Option<u8> {
    let [high, low] = pair else {
        return None;
    };
    Some(digit(*high)? * 16 + digit(*low)?)
}

// The number that a text begins with, decimal digits alone, and what comes after it. (It has no sign, which `parse` would take.)
fn number(text: &[u8]) -> Option<(u32, &[u8])>
    ensures { IfSome result (λ found. length found.1.now ≤ length text.now) }
{
    let mut value: u64 = 0;
    let mut rest = text;
    while let [c @ b'0'..=b'9', tail @ ..] = rest {
        value = value * 10 + u64::from(*c - b'0');
        if u64::from(u32::MAX) < value {
            return None;
        }
        rest = tail;
    }
    if rest.len() == text.len() {
        return None;
    }
    Some((value as u32, rest))
}

// The numbers after a word, one space before each, put into a room for them; `None` where one is none, or they are too many.
pub fn numbers<'a>(after: &[u8], room: &'a mut [u32; MOST_NUMBERS]) -> Option<Part<'a>> {
    let mut count = 0;
    let mut rest = after;
    while let [first, tail @ ..] = rest {
        if *first != b' ' || count == MOST_NUMBERS {
            return None;
        }
        let (value, more) = number(tail)?;
        room[count] = value;
        count += 1;
        rest = more;
    }
    let numbers = &room[..count];
    Some(Part { numbers })
}
