// A join: its answer and its whole output.
use super::build::File;
use super::row::Row;
use super::tell::Report;
use super::{ask, build};
use std::io;

// A line `j`: the header values of the first file and of the second, the room, the refusal, or 0 for it, and then kind, filter size,
// references and items of the joined file; and always the items of the first file and of the second, and the marks of all these.
pub fn tried(report: &mut Report<impl Print>, row: &Row) -> io::Result<()> {
    let mut numbers = row.numbers();
    let one = numbers.header();
    let two = numbers.header();
    let room = numbers.size();
    let refusal = numbers.refusal();
    let joined = numbers.header();
    let mut both = numbers;
    let items = numbers.items(one.items);
    let more = numbers.items(two.items);
    // The marks of the joined file stand behind the items of both, also where it has fewer.
    let marks = numbers.left();
    let _first = numbers.list(one.items);
    let f = build::file_of(one, items, marks);
    let g = build::file_of(two, more, numbers.left());
    let (want, after) = match refusal {
        Some(r) => (r.into(), File::new()),
        None => (
            joined.into(),
            build::file_of(joined, both.items(joined.items), marks),
        ),
    };
    let came = ask::join(f.as_slice(), g.as_slice(), room, after.as_slice());
    report.line("join", row.name, came, want)
}
