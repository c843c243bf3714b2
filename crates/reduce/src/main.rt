// Reads a settings field and a trace from standard input, and writes the reduced file, or the line of the refusal.
#![tactic(auto)]

use limits::Input;
use reading::{answered, written};
use std::io;

fn main(rt: HostRuntime) -> io::Result<()> {
    let mut out = [0u8; Input::PLACES];
    let m = answered(&mut rt.stdin(), &mut out, lines::reduce::program)?;
    written(&rt, "reduce", &out[..m])
}
