// Reading an input into lent bytes, in whatever pieces it comes.

#![tactic(auto)]

ghost use Rattle.std.specs.Prelude.{ℕ, ◌<◌, ◌≤◌, length, take, IfOk, OnErr};
ghost use Rattle.std.specs.Io.KnownBytes.{Consumes, IsAtEnd};

use std::io;
use std::io::Read;

// Reads until the buffer is full or the input ends, and answers how many bytes came. They stand first in the buffer.
pub fn read_full<R: Read>(input: &mut R, buffer: &mut [u8]) -> io::Result<usize>
    ensures within { IfOk result (λ got. got ≤ length buffer.new) }
    ensures bytes { IfOk result (λ got. Consumes (R.remaining input.old) (R.remaining input.new) (take got buffer.new)) }
    ensures err { OnErr result ((got : ℕ) × (got ≤ length buffer.new) × Consumes (R.remaining input.old) (R.remaining input.new) (take got buffer.new)) }
    ensures end { IfOk result (λ got. got < length buffer.new → IsAtEnd (R.remaining input.new)) }
{
    let mut got = 0;
    // (By hand: std's `read_exact` counts no bytes of an input that ends too soon, and its `read_to_end` needs a heap.)
    while got < buffer.len() {
        let more = input.read(&mut buffer[got..])?;
        if more == 0 {
            return Ok(got);
        }
        got += more;
    }
    Ok(got)
}
