// A reduction: its answer and its whole output.
use super::ask::Reduction;
use super::build::File;
use super::row::Row;
use super::tell::Report;
use std::io;
use trace::Header;

// A line `r`: mode, filter size, room and the refusal; or 0 for it, the references, how many items are kept, these, and their marks.
pub fn tried(report: &mut Report<impl Print>, row: &Row) -> io::Result<()> {
    let mut numbers = row.numbers();
    let s = Reduction {
        mode: numbers.one(),
        filter: numbers.one(),
        room: numbers.size(),
    };
    let refusal = numbers.refusal();
    let h = Header {
        kind: s.mode,
        filter: s.filter,
        references: numbers.one(),
        items: numbers.one(),
    };
    let (want, after) = match refusal {
        Some(r) => (r.into(), File::new()),
        None => (h.into(), numbers.file(h, h.items)),
    };
    let came = s.run(row.on.as_slice(), after.as_slice());
    report.line("reduce", row.name, came, want)
}
