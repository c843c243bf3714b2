// Reads a trace file from standard input, and writes what `check` answers.
#![tactic(auto)]

use reading::read_full;
use std::io;

// A file of more bytes is not looked at.
const MOST: usize = 65535;

fn main(rt: HostRuntime) -> io::Result<()> {
    let mut buffer = [0u8; MOST + 1];
    let n = read_full(&mut rt.stdin(), &mut buffer)?;
    if n > MOST {
        return println!(rt; "over {MOST} bytes");
    }
    match trace::check(&buffer[..n]) {
        Ok(h) => println!(rt;
            "kind {} filter {} references {} items {}",
            h.kind, h.filter, h.references, h.items
        ),
        Err(r) => println!(rt; "refused {} trace {} item {}", r.number, r.trace, r.item),
    }
}
