// What was answered, in print: functions and no Display, since each text is printed in one place, and a type around each would only add an impl to it.
use alert::Conditions;
use history::{Answer, Call, Turn};
use segment::{JoinAnswer, Reply, SegmentFault};
use std::io;
use text::Spaced;

// Prints the answer of a turn.
pub fn print_answer(rt: &HostRuntime, turn: &Turn<'_>) -> io::Result<()> {
    match turn.answer {
        Answer::Sampled(answer) => print_sampled(rt, answer),
        Answer::Replied(answer) => print_replied(rt, turn, answer),
        Answer::Present(present) => rt.print(if present { "yes" } else { "no" }),
        Answer::Entries => {
            let count = turn.after.entries.len();
            print!(rt; "entries: {count}")
        }
        Answer::Low(low) => rt.print(level(low)),
        Answer::Joined(answer) => print_joined(rt, answer),
    }
}

// The word for the level of the line.
// Whether the line is low is a test and no type of its own: a Display for one would say no more than this line.
pub fn level(low: bool) -> &'static str {
    if low { "low" } else { "high" }
}

// Prints the answer to a sample.
fn print_sampled(rt: &HostRuntime, answer: Result<Conditions, SegmentFault>) -> io::Result<()> {
    match answer {
        Ok(raised) => print!(rt; "accepted, raised {raised}"),
        Err(fault) => print_fault(rt, fault),
    }
}

// Prints the answer to a transfer or to an alert read.
fn print_replied(
    rt: &HostRuntime,
    turn: &Turn<'_>,
    answer: Result<Reply, SegmentFault>,
) -> io::Result<()> {
    match answer {
        Ok(reply) => print_reply(rt, turn, reply),
        Err(fault) => print_fault(rt, fault),
    }
}

// Prints the reply to a transfer, or who answers an alert read and with which bytes.
fn print_reply(rt: &HostRuntime, turn: &Turn<'_>, reply: Reply) -> io::Result<()> {
    let (count, raised) = reply;
    let Some(bytes) = turn.after.reply.get(0..count) else {
        return rt.print("accepted, with a reply that is not in the buffer");
    };
    let spaced = Spaced(bytes);
    match (turn.call, bytes) {
        (Call::AlertRead(_), [first, ..]) => {
            let address = *first / 2;
            print!(rt; "{address:02X}h answers:{spaced}")
        }
        _ => print!(rt; "accepted, {count} bytes{spaced}, raised {raised}"),
    }
}

// Prints a refusal: its number, who refused, why, and what it raised.
fn print_fault(rt: &HostRuntime, fault: SegmentFault) -> io::Result<()> {
    let number = fault.number();
    let layer = fault.layer();
    let raised = fault.raised();
    print!(rt; "refused {number} by {layer}: {fault}, raised {raised}")
}

// Prints what the join answers.
fn print_joined(rt: &HostRuntime, answer: Option<JoinAnswer>) -> io::Result<()> {
    match answer {
        Some(answer) => rt.print(answer),
        None => rt.print("not a join"),
    }
}
