// The questions that one number answers.
use crate::question::{Field, joined};
use said::refusal::Refusal;

#[derive(Clone, Copy)]
pub enum Number<'a> {
    Check,
    Size(u32),
    Align(u32),
    MinSize(u32),
    Uniform(u32),
    Rank(u32, u32),
    Common(&'a [u32]),
    // an entry and the order
    CheckOrder(u32, &'a [u32]),
    // an entry, the field and the steps
    Extract(u32, Field, &'a [u32]),
    // a word and the field
    ExtractU32(u32, Field),
    // a word, the new value and the field
    InsertU32(u32, u32, Field),
    // a literal's kind and its pattern, and the kind to convert it to
    Convert(u32, u64, u32),
}

impl<'a> Number<'a> {
    // The question of a word and the numbers after it; `None` where it is none of these.
    pub fn parse(word: &[u8], numbers: &'a [u32]) -> Option<Number<'a>> {
        let asked = match (word, numbers) {
            (b"check", []) => Number::Check,
            (b"size", [entry]) => Number::Size(*entry),
            (b"align", [entry]) => Number::Align(*entry),
            (b"min_size", [entry]) => Number::MinSize(*entry),
            (b"uniform", [entry]) => Number::Uniform(*entry),
            (b"rank", [from, to]) => Number::Rank(*from, *to),
            (b"common", list) => Number::Common(list),
            (b"check_order", [entry, order @ ..]) => Number::CheckOrder(*entry, order),
            (b"extract", [entry, offset, count, path @ ..]) => {
                Number::Extract(*entry, Field::of(*offset, *count), path)
            }
            (b"extract_u32", [word, offset, count]) => {
                Number::ExtractU32(*word, Field::of(*offset, *count))
            }
            (b"insert_u32", [word, new, offset, count]) => {
                Number::InsertU32(*word, *new, Field::of(*offset, *count))
            }
            (b"convert", [from, low, high, to]) => {
                Number::Convert(*from, joined(*low, *high), *to)
            }
            _ => return None,
        };
        Some(asked)
    }

    pub fn ask(self, file: &[u8], buffer: &[u8]) -> Result<u64, Refusal> {
        let number = match self {
            Number::Check => lepugaso::check(file)?,
            Number::Size(entry) => lepugaso::size(file, entry)?,
            Number::Align(entry) => lepugaso::align(file, entry)?,
            Number::MinSize(entry) => lepugaso::min_size(file, entry)?,
            Number::Uniform(entry) => lepugaso::uniform(file, entry)?,
            Number::Rank(from, to) => lepugaso::rank(file, from, to)?,
            Number::Common(list) => lepugaso::common(file, list)?,
            Number::CheckOrder(entry, order) => lepugaso::check_order(file, entry, order)?,
            Number::Extract(entry, Field { offset, count }, path) => {
                lepugaso::extract_bits(file, entry, path, buffer, offset, count)?
            }
            Number::ExtractU32(word, Field { offset, count }) => {
                lepugaso::extract_bits_u32(word, offset, count)
            }
            Number::InsertU32(word, new, Field { offset, count }) => {
                lepugaso::insert_bits_u32(word, new, offset, count)
            }
            Number::Convert(from, pattern, to) => return lepugaso::convert(from, pattern, to),
        };
        Ok(u64::from(number))
    }
}
