// The program: a context and a base from standard input, the report as text on standard output.
#![tactic(auto)]

mod input;
mod listing;
mod text;

use std::io;
use std::io::Write;

// Reads until its buffer is full or the input ends, and prints the text for the whole input.
fn main(rt: HostRuntime) -> io::Result<()> {
    // 6 bytes of context, 2,460 of base, and one more, by which a longer base is seen
    let mut input = [0u8; 2467];
    let read = input::read_full(&mut rt.stdin(), &mut input)?;
    // sixteen lines of at most 47 bytes, and a last one
    let mut out = [0u8; 768];
    let n = listing::listing(&input, read, &mut out);
    io::writer(&rt).write_all(&out[..n])
}
