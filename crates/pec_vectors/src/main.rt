// Prints the packet error code of each line of standard input, a message in upper-case hexadecimal.
#![tactic(auto)]

mod hexadecimal;

use std::io;
use std::io::{BufRead, BufReader, Read};

// The most bytes of standard input that are read; what follows them is left unread.
const MOST_BYTES: u64 = 60_000;

// Answers each line of standard input with one line of standard output.
// The two readers of vectors have this loop in common: to share it would take a crate of its own.
fn main(rt: HostRuntime) -> io::Result<()> {
    let input = BufReader::new(rt.alloc(), rt.stdin().take(MOST_BYTES))?;
    for line in input.lines(rt.alloc()) {
        answer(&rt, line?.as_bytes())?;
    }
    Ok(())
}

// Prints the code of the message that the line spells, or that it spells none.
fn answer(rt: &HostRuntime, line: &[u8]) -> io::Result<()> {
    match hexadecimal::message(rt.alloc(), line)? {
        Some(bytes) => {
            let code = smbus::code(&bytes);
            println!(rt; "{code:02X}")
        }
        None => println!(rt; "not hexadecimal bytes"),
    }
}
