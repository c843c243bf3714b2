// Files that are refused by themselves, 1 to 4 and 6, through every call: as the first file trace 1, as the second file of a join trace 2.
use super::answer::Answer;
use super::ask::{Left, Reduction, Replaying};
use super::row::Row;
use super::tell::Report;
use super::{ask, build};
use std::io;
use trace::{Header, Refusal};

// A file, and how it is refused as the first or only file of a call.
#[derive(Clone, Copy)]
struct Faulty<'a> {
    name: &'a [u8],
    file: &'a [u8],
    refusal: Refusal,
}

impl Faulty<'_> {
    fn reduced(&self, report: &mut Report<impl Print>, call: &str, s: Reduction) -> io::Result<()> {
        let came = s.run(self.file, &[]);
        report.line(call, self.name, came, self.refusal.into())
    }

    fn replayed(
        &self,
        report: &mut Report<impl Print>,
        call: &str,
        s: Replaying,
    ) -> io::Result<()> {
        let came = s.run(self.file, Left::NOTHING);
        let want = Answer::refused(self.refusal, s.resident as u64);
        report.line(call, self.name, came, want)
    }

    // As the first file of a join.
    fn joined_first(
        &self,
        report: &mut Report<impl Print>,
        call: &str,
        other: &[u8],
        room: usize,
    ) -> io::Result<()> {
        let came = ask::join(self.file, other, room, &[]);
        report.line(call, self.name, came, self.refusal.into())
    }

    fn joined_second(
        &self,
        report: &mut Report<impl Print>,
        call: &str,
        other: &[u8],
        room: usize,
    ) -> io::Result<()> {
        let came = ask::join(other, self.file, room, &[]);
        let second = Refusal {
            trace: 2,
            ..self.refusal
        };
        report.line(call, self.name, came, second.into())
    }

    // All that goes with the file is good, so that nothing else can be what is refused.
    fn alone(&self, report: &mut Report<impl Print>) -> io::Result<()> {
        let h = Header {
            kind: 0,
            filter: 0,
            references: 3,
            items: 3,
        };
        let good = build::file_of(h, &[1, 10, 2, 20, 3, 30], &[0, 1]);
        let s = Reduction {
            mode: 1,
            filter: 2,
            room: 140,
        };
        let r = Replaying {
            size: 2,
            places: 4,
            resident: 2,
            room: 40,
            start: &[7, 8],
            marks: &[0, 1],
        };
        report.line(
            "check",
            self.name,
            ask::check(self.file),
            self.refusal.into(),
        )?;
        self.reduced(report, "reduce", s)?;
        self.replayed(report, "replay", r)?;
        self.joined_first(report, "join, first file", good.as_slice(), 140)?;
        self.joined_second(report, "join, second file", good.as_slice(), 140)
    }

    // Settings, start, the other file and the room are wrong too, and the file's refusal still comes first.
    fn among_others(&self, report: &mut Report<impl Print>) -> io::Result<()> {
        let h = Header {
            kind: 2,
            filter: 1,
            references: 4294967295,
            items: 1,
        };
        let late = build::file_of(h, &[1, 1000], &[]);
        let s = Reduction {
            mode: 3,
            filter: 0,
            room: 5,
        };
        let r = Replaying {
            size: 0,
            places: 2,
            resident: 9,
            room: 2,
            start: &[7, 7],
            marks: &[1, 0],
        };
        self.reduced(report, "reduce, all wrong", s)?;
        self.replayed(report, "replay, all wrong", r)?;
        self.joined_first(report, "join, both files", self.file, 5)?;
        self.joined_second(report, "join, all wrong", late.as_slice(), 5)
    }

    fn tried(&self, report: &mut Report<impl Print>) -> io::Result<()> {
        self.alone(report)?;
        self.among_others(report)
    }
}

// A line `b`: a byte's place, the byte put there, the file's length, the refusal and its item.
pub fn with_byte(report: &mut Report<impl Print>, row: &Row) -> io::Result<()> {
    let mut numbers = row.numbers();
    let at = numbers.size();
    let byte = numbers.byte();
    let mut poked = *row.on;
    poked.put(at, byte);
    poked.resize(numbers.size());
    let faulty = Faulty {
        name: row.name,
        file: poked.as_slice(),
        refusal: numbers.at_item(),
    };
    faulty.tried(report)
}

// A line `x`: the refusal and its item, how many items are there, the four header values, the items, and their marks.
pub fn tried(report: &mut Report<impl Print>, row: &Row) -> io::Result<()> {
    let mut numbers = row.numbers();
    let refusal = numbers.at_item();
    let count = numbers.one();
    let h = numbers.header();
    let file = numbers.file(h, count);
    let faulty = Faulty {
        name: row.name,
        file: file.as_slice(),
        refusal,
    };
    faulty.tried(report)
}
