// A table, line by line. A line `f` is the file that those below it are on; each other form is told where it is tried.
use super::build::File;
use super::row::Row;
use super::tell::Report;
use super::{checks, faults, joins, programs, reductions, runs};
use programs::Program;
use std::io;

fn tried(report: &mut Report<impl Print>, row: &Row) -> io::Result<()> {
    match row.form {
        b'c' => checks::tried(report, row),
        b'b' => faults::with_byte(report, row),
        b'x' => faults::tried(report, row),
        b'r' => reductions::tried(report, row),
        b'j' => joins::tried(report, row),
        b'p' => runs::tried(report, row),
        b'l' => Program::Replay.told(report, row),
        b'd' => Program::Reduce.told(report, row),
        b'w' => programs::written(report, row),
        b'#' => Ok(()),
        _ => report.unread(row.name),
    }
}

pub fn each(report: &mut Report<impl Print>, text: &[u8]) -> io::Result<()> {
    let mut file = File::new();
    // The text from a line on, since the numbers of a line with no colon go on in those below.
    let mut rest = text;
    for line in text.split(|b| *b == b'\n') {
        if let Some(row) = Row::parse(line, rest, &file) {
            if row.form == b'f' {
                file = row.file();
            } else {
                tried(report, &row)?;
            }
        }
        rest = rest.get(line.len() + 1..).unwrap_or(&[]);
    }
    Ok(())
}
