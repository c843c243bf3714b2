// A replay: its answer, the cache with its marks, and every event.
use super::answer::Answer;
use super::ask::{Left, Replaying};
use super::row::Row;
use super::tell::Report;
use std::io;

// A line `p`: cache size, places, resident count, room and the refusal, or 0 for it; how many numbers the cache starts with, and these; where it is
// refused, then their marks. Where it is not, items, fetches, evictions, resident pages and the rate; these pages; the events; and the marks
// of the start and of the resident pages.
pub fn tried(report: &mut Report<impl Print>, row: &Row) -> io::Result<()> {
    let mut numbers = row.numbers();
    let size = numbers.one();
    let places = numbers.size();
    let resident = numbers.size();
    let room = numbers.size();
    let refusal = numbers.refusal();
    let count = numbers.one();
    let start = numbers.list(count);
    let (want, pages, events) = match refusal {
        Some(r) => (
            Answer::refused(r, resident as u64),
            numbers.list(0),
            numbers.list(0),
        ),
        None => {
            let tally = numbers.summary();
            let pages = numbers.list(tally.resident);
            let events = numbers.list(tally.fetches.saturating_mul(4));
            (tally.into(), pages, events)
        }
    };
    let marks = numbers.list(count);
    let left = Left {
        pages,
        marks: numbers.list(pages.len() as u64),
        events,
    };
    let s = Replaying {
        size,
        places,
        resident,
        room,
        start,
        marks,
    };
    let came = s.run(row.on.as_slice(), left);
    report.line("replay", row.name, came, want)
}
