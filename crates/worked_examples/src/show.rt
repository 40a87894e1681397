// Printing: words, numbers, and the entries of a buffer with their checksum.
use std::io;

pub(crate) fn text(rt: &impl Print, words: &[u8]) -> io::Result<()> {
    rt.write_all(words)
}

// A number, after a space.
pub(crate) fn number(rt: &impl Print, n: usize) -> io::Result<()> {
    print!(rt; " {n}")
}

// A number, after some words.
pub(crate) fn say(rt: &impl Print, words: &[u8], n: usize) -> io::Result<()> {
    text(rt, words)?;
    number(rt, n)
}

// The checksum of a buffer, from `sum` on. Its first n entries are printed, after its name. The factor is odd, so that what differs
// modulo 2^32 goes on to differ: no entry hides that one before it is another. (Where n is 0 only the sum is made: one test, and no closure.)
pub(crate) fn entries<T: Copy>(
    rt: &impl Print,
    sum: usize,
    name: &[u8],
    buffer: &[T],
    n: usize,
) -> io::Result<usize>
where
    usize: From<T>,
{
    if 0 < n {
        text(rt, name)?;
    }
    let mut total = sum;
    for (i, e) in buffer.iter().enumerate() {
        let entry = usize::from(*e);
        if i < n {
            number(rt, entry)?;
        }
        total = total % 4294967296 * 65599 + entry % 65536;
    }
    Ok(total)
}
