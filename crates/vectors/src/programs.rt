// The two programs, from input bytes to output bytes: the settings field, the file of the lines above, and the whole output.
use super::answer::Answer;
use super::ask::Came;
use super::build::{self, File};
use super::row::{Numbers, Row};
use super::tell::Report;
use limits::Input;
use lines::replay::ROOM;
use std::io;
use trace::Header;

// An input is no longer; one byte more than the programs take.
const MOST: usize = Input::PLACES + 1;

#[derive(Clone, Copy)]
pub enum Program {
    Reduce,
    Replay,
}

// Six settings bytes, and from a place on the file, over them or behind zeros: as many bytes as are asked, or those up to the file's end. What
// is longer than an input may be is no bytes at all.
fn input<'a>(room: &'a mut [u8; MOST], numbers: &mut Numbers, file: &[u8]) -> &'a [u8] {
    let start = numbers.size();
    for (place, x) in room.iter_mut().zip(numbers.list(6)) {
        *place = build::low(*x);
    }
    for (place, b) in room.iter_mut().skip(start).zip(file) {
        *place = *b;
    }
    let end = start.saturating_add(file.len()).min(MOST).max(start);
    let asked = numbers.size();
    let len = if asked == 0 { end } else { asked };
    room.get(..len).unwrap_or(&[])
}

// A slash stands for a line feed where a text is told.
fn told(text: &[u8]) -> File {
    let mut told = File::new();
    for b in text {
        told.push(if *b == b'/' { b'\n' } else { *b });
    }
    told
}

// A name, and what stands behind a bar after it.
fn at_bar(text: &[u8]) -> (&[u8], &[u8]) {
    let bar = text.iter().position(|b| *b == b'|').unwrap_or(text.len());
    let (name, told) = text.split_at(bar);
    (name, told.get(1..).unwrap_or(&[]))
}

impl Program {
    fn call(self) -> &'static str {
        match self {
            Program::Reduce => "reduce program",
            Program::Replay => "replay program",
        }
    }

    // How many bytes it writes to an output of its room; of another length it is not called.
    fn run(self, input: &[u8], out: &mut [u8]) -> usize {
        match self {
            Program::Reduce => out
                .as_mut_array()
                .map_or(0, |out| lines::reduce::program(input, out)),
            Program::Replay => out
                .as_mut_array()
                .map_or(0, |out| lines::replay::program(input, out)),
        }
    }

    // On an input that it should write this for.
    fn came(self, input: &[u8], want: &[u8]) -> Came {
        match self {
            Program::Reduce => {
                let mut out = [0u8; Input::PLACES];
                self.came_on(&mut out, input, want)
            }
            Program::Replay => {
                let mut out = [0u8; ROOM];
                self.came_on(&mut out, input, want)
            }
        }
    }

    fn came_on(self, out: &mut [u8], input: &[u8], want: &[u8]) -> Came {
        Came::of(out, want, |out| Answer::length(self.run(input, out)))
    }

    fn tried(
        self,
        report: &mut Report<impl Print>,
        name: &[u8],
        input: &[u8],
        want: &[u8],
    ) -> io::Result<()> {
        let came = self.came(input, want);
        report.line(self.call(), name, came, Answer::length(want.len()))
    }

    // A line `l`, of the replay program, or `d`, where the reduce program refuses: how many settings bytes, six of them, the length or 0; the
    // name, a bar, and the output.
    pub fn told(self, report: &mut Report<impl Print>, row: &Row) -> io::Result<()> {
        let (name, text) = at_bar(row.name);
        let want = told(text);
        let mut room = [0u8; MOST];
        let input = input(&mut room, &mut row.numbers(), row.on.as_slice());
        self.tried(report, name, input, want.as_slice())
    }
}

// A line `w`: the same, where the reduce program writes a file, and what is behind a bar is not looked at; its references, how many items are
// kept, these, and their marks.
pub fn written(report: &mut Report<impl Print>, row: &Row) -> io::Result<()> {
    let mut numbers = row.numbers();
    let mut room = [0u8; MOST];
    let input = input(&mut room, &mut numbers, row.on.as_slice());
    // Mode and filter size are the fourth and the fifth settings byte.
    let mut settings = row.numbers();
    let _before = settings.list(4);
    let h = Header {
        kind: settings.one(),
        filter: settings.one(),
        references: numbers.one(),
        items: numbers.one(),
    };
    let want = numbers.file(h, h.items);
    let (name, _) = at_bar(row.name);
    Program::Reduce.tried(report, name, input, want.as_slice())
}
