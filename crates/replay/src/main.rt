// Reads a settings field and a trace from standard input, and writes the lines of the replay, or that of the refusal.
#![tactic(auto)]

use lines::replay::ROOM;
use reading::{answered, written};
use std::io;

fn main(rt: HostRuntime) -> io::Result<()> {
    let mut out = [0u8; ROOM];
    let m = answered(&mut rt.stdin(), &mut out, lines::replay::program)?;
    written(&rt, "replay", &out[..m])
}
