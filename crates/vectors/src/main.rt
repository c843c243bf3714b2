// Runs the table of vectors that the crate's file `stdin` has, the paper's examples that are not proved as theorems, and compares. A line for
// each, and at last how many passed and failed.
#![tactic(auto)]

mod answer;
mod ask;
mod build;
mod checks;
mod faults;
mod joins;
mod noise;
mod programs;
mod reductions;
mod row;
mod runs;
mod table;
mod tell;

use reading::read_full;
use std::io;
use tell::Report;

// A longer table is cut at so many bytes.
const MOST: usize = 65536;

fn main(rt: HostRuntime) -> io::Result<()> {
    let mut buffer = [0u8; MOST];
    let n = read_full(&mut rt.stdin(), &mut buffer)?;
    let mut report = Report::new(&rt);
    table::each(&mut report, &buffer[..n])?;
    report.total()
}
