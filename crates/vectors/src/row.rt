// A line of the table: the letter of its form, a space, numbers, parted by a space or a slash, then a colon and a name. A dash is 0.
use super::build::{self, File};
use replays::Summary;
use trace::{Header, Refusal};

// A line keeps so many numbers.
const MOST: usize = 48;

#[derive(Clone, Copy)]
pub struct Row<'a> {
    numbers: [u64; MOST],
    pub form: u8,
    pub name: &'a [u8],
    // The file that the line is on.
    pub on: &'a File,
}

// The numbers of a line, taken off its front. Those left out are 0.
#[derive(Clone, Copy)]
pub struct Numbers<'a> {
    rest: &'a [u64],
}

// A number with one digit more, a byte's distance from `0`. A byte below that, as a dash, changes nothing, nor does a digit for which a number is
// too large; a sum that does not fit wraps.
fn with_digit(x: u64, b: u8) -> u64 {
    match (x.checked_mul(10), b.checked_sub(b'0')) {
        (Some(tens), Some(digit)) => tens.wrapping_add(u64::from(digit)),
        _ => x,
    }
}

// The digits of words behind the last number that a line keeps go on with that number.
fn numbers_in(words: &[u8]) -> [u64; MOST] {
    let mut numbers = [0u64; MOST];
    for (i, word) in words.split(|b| *b == b' ' || *b == b'/').enumerate() {
        let place = &mut numbers[i.min(MOST - 1)];
        *place = word.iter().fold(*place, |x, b| with_digit(x, *b));
    }
    numbers
}

impl<'a> Row<'a> {
    // The line at the front of `text`, or None where it is empty. A line with no colon has no name, and its numbers go on in the lines below,
    // up to a colon.
    pub fn parse(line: &'a [u8], text: &[u8], on: &'a File) -> Option<Row<'a>> {
        let form = *line.first()?;
        let words = text.get(2..).unwrap_or(&[]);
        let colon = words.iter().position(|b| *b == b':');
        let end = colon.unwrap_or(words.len());
        Some(Row {
            numbers: numbers_in(&words[..end]),
            form,
            // Behind the letter and a space, and behind the colon and a space.
            name: line.get(end.saturating_add(4)..).unwrap_or(&[]),
            on,
        })
    }

    pub fn numbers(&self) -> Numbers<'_> {
        Numbers {
            rest: &self.numbers,
        }
    }

    // The four header values, the items, and their marks.
    pub fn file(&self) -> File {
        let mut numbers = self.numbers();
        let h = numbers.header();
        numbers.file(h, h.items)
    }
}

impl<'a> Numbers<'a> {
    pub fn one(&mut self) -> u64 {
        match self.rest.split_first() {
            Some((x, rest)) => {
                self.rest = rest;
                *x
            }
            None => 0,
        }
    }

    pub fn size(&mut self) -> usize {
        self.one() as usize
    }

    pub fn byte(&mut self) -> u8 {
        build::low(self.one())
    }

    // A refusal of the first trace and of no item, or 0 for none.
    pub fn refusal(&mut self) -> Option<Refusal> {
        match self.one() {
            0 => None,
            number => Some(Refusal {
                number,
                trace: 1,
                item: 0,
            }),
        }
    }

    // A refusal of the first trace, and the item at fault.
    pub fn at_item(&mut self) -> Refusal {
        Refusal {
            number: self.one(),
            trace: 1,
            item: self.one(),
        }
    }

    // The next so many, or all that there are.
    pub fn list(&mut self, count: u64) -> &'a [u64] {
        let n = self.rest.len().min(count as usize);
        let (list, rest) = self.rest.split_at(n);
        self.rest = rest;
        list
    }

    // So many items, each a page and a time. No row has twenty: so many, or more, are all that there is.
    pub fn items(&mut self, count: u64) -> &'a [u64] {
        let all = self.rest.len() as u64;
        self.list(if count < 20 { 2 * count } else { all })
    }

    // All that are left.
    pub fn left(&self) -> &'a [u64] {
        self.rest
    }

    pub fn header(&mut self) -> Header {
        Header {
            kind: self.one(),
            filter: self.one(),
            references: self.one(),
            items: self.one(),
        }
    }

    pub fn summary(&mut self) -> Summary {
        Summary {
            items: self.one(),
            fetches: self.one(),
            evictions: self.one(),
            resident: self.one(),
            permillion: self.one(),
        }
    }

    // A file of this header and so many items, which come next, and then their marks.
    pub fn file(&mut self, h: Header, count: u64) -> File {
        let items = self.items(count);
        let marks = self.list(count);
        build::file_of(h, items, marks)
    }
}
