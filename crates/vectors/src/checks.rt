// A file that is taken.
use super::ask;
use super::row::Row;
use super::tell::Report;
use std::io;

// A line `c`: the four header values, the items, and their marks.
pub fn tried(report: &mut Report<impl Print>, row: &Row) -> io::Result<()> {
    let file = row.file();
    let h = row.numbers().header();
    report.line("check", row.name, ask::check(file.as_slice()), h.into())
}
