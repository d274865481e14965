// Makes the conversion that each line of standard input asks for, and prints its answer.
#![tactic(auto)]

mod requests;

use requests::{Answer, Request};
use std::io;
use std::io::{BufRead, BufReader, Read};

// The most bytes of standard input that are read; what follows them is left unread.
const MOST_BYTES: u64 = 60_000;

// Answers each line of standard input with one line of standard output.
// The two readers of vectors have this loop in common: to share it would take a crate of its own.
fn main(rt: HostRuntime) -> io::Result<()> {
    let input = BufReader::new(rt.alloc(), rt.stdin().take(MOST_BYTES))?;
    for line in input.lines(rt.alloc()) {
        answer(&rt, line?.as_str())?;
    }
    Ok(())
}

// Prints the value in decimal, the word in hexadecimal, or the refusal's number.
fn answer(rt: &HostRuntime, line: &str) -> io::Result<()> {
    let Ok(request) = line.parse::<Request>() else {
        return println!(rt; "not a request");
    };
    match request.answer() {
        Ok(Answer::Value(value)) => println!(rt; "{value}"),
        Ok(Answer::Word(word)) => println!(rt; "{word:04X}"),
        Err(refusal) => {
            let number = refusal.number();
            println!(rt; "refused {number}")
        }
    }
}
