// Turns a limit sheet into the words and the bytes to send.
#![tactic(auto)]

ghost use Rattle.std.specs.Prelude.{◌≤◌, length, IfOk};

use anyhow::anyhow;
use sheet::sheet_of;
use std::io;
use std::io::{Read, Write};

// The most bytes of a sheet that are read; what follows them is left unread.
const MOST_BYTES: usize = 60_000;

// Reads into `buffer` until it is full or the input ends; the number of bytes that were read.
// By hand, into memory of a fixed size: the library's read_to_end takes its memory from the heap, so that reading alone could fail for want of it.
fn fill<R: Read>(input: &mut R, buffer: &mut [u8]) -> io::Result<usize>
    ensures { IfOk result (λ n. n ≤ length buffer.old) }
{
    let mut filled = 0;
    while filled < buffer.len() {
        let count = input.read(&mut buffer[filled..])?;
        if count == 0 {
            break;
        }
        filled += count;
    }
    Ok(filled)
}

// Prints what the sheet on the standard input is answered, of which at most 60,000 bytes are read.
fn main(rt: HostRuntime) -> anyhow::Result<()> {
    let mut buffer = [0u8; MOST_BYTES];
    let count = fill(&mut rt.stdin(), &mut buffer)?;
    let input = &buffer[..count];
    let text = sheet_of(rt.alloc(), input).map_err(|_| anyhow!("no memory for the sheet"))?;
    rt.stdout().write_all(&text)?;
    Ok(())
}
