// What the programs do with their standard input.
#![tactic(auto)]

ghost use Rattle.std.specs.Prelude.{◌≡◌, ℕ, ◌<◌, ◌≤◌, List, length, take, IfOk};
ghost use Rattle.std.specs.Io.KnownBytes.{Consumes, IsAtEnd};
ghost use Rattle.reading.specs.Made.{Makes};

use limits::Input;
use std::io::{self, Read};

// Reads until the buffer is full or the input ends, and answers how many bytes were read: they are those that the reader lost, and fewer than there is room for only at its end.
pub fn read_full<R: Read>(reader: &mut R, buf: &mut [u8]) -> io::Result<usize>
    ensures bound { IfOk result (λ n. n ≤ length buf.new) }
    ensures bytes { IfOk result (λ n. Consumes (R.remaining reader.old) (R.remaining reader.new) (take n buf.new)) }
    ensures end { IfOk result (λ n. n < length buf.new → IsAtEnd (R.remaining reader.new)) }
{
    // A loop, since std's `read_exact` fails where the input ends before the buffer does.
    let mut done = 0;
    while done < buf.len() {
        let n = reader.read(&mut buf[done..])?;
        if n == 0 {
            return Ok(done);
        }
        done += n;
    }
    Ok(done)
}

// Gives a program what is read, and answers what it answers. No more is read than one byte beyond the most that a program takes, so that a longer
// input is seen to be longer.
pub fn answered<O, R: Read, P: FnOnce(&[u8], &mut O) -> usize>(
    reader: &mut R,
    out: &mut O,
    program: P,
) -> io::Result<usize>
    requires { P.IsAlwaysCallable program }
    ensures { IfOk result (λ m. (input : List ℕ) × Consumes (R.remaining reader.old) (R.remaining reader.new) input
        × (length input ≤ Input.PLACES → IsAtEnd (R.remaining reader.new)) × Makes P.FnOnce program input out.old m out.new) }
{
    let mut input = [0u8; Input::PLACES + 1];
    let n = read_full(reader, &mut input)?;
    Ok(program(&input[..n], out))
}

// Writes the output, or says that it is not written whole.
pub fn written(rt: &(impl Print + Eprint), name: &str, out: &[u8]) -> io::Result<()> {
    if rt.write_all(out).is_err() {
        eprintln!(rt; "{name}: the output is not written whole")?;
    }
    Ok(())
}
