// What was asked, in print: functions and no Display, since each text is printed in one place, and a type around each would only add an impl to it.
use history::{Call, Question};
use segment::Sample;
use std::io;
use text::Spaced;

// Prints what a call asks.
pub fn print_call(rt: &HostRuntime, call: Call<'_>) -> io::Result<()> {
    match call {
        Call::Sample(address, sample) => print_sample(rt, address, sample),
        Call::Transfer(address, [], wanted) => {
            print!(rt; "transfer {address:02X}h: write nothing, want {wanted}")
        }
        Call::Transfer(address, written, wanted) => {
            let bytes = Spaced(written);
            print!(rt; "transfer {address:02X}h: write{bytes}, want {wanted}")
        }
        Call::AlertRead(wanted) => print!(rt; "alert read, want {wanted}"),
        Call::Ask(question) => print_question(rt, question),
    }
}

// Prints a sample: its five words and its pins.
fn print_sample(rt: &HostRuntime, address: u8, sample: Sample) -> io::Result<()> {
    let Sample {
        vin,
        vout,
        iin,
        vaux,
        temperature,
        pins,
    } = sample;
    print!(rt; "sample {address:02X}h: words {vin:04X} {vout:04X} {iin:04X} {vaux:04X}")?;
    print!(rt; " {temperature:04X}, pins {pins:04X}")
}

// Prints a question.
fn print_question(rt: &HostRuntime, question: Question) -> io::Result<()> {
    match question {
        Question::Address(address) => print!(rt; "ask: is {address:02X}h on the segment"),
        Question::Entries => rt.print("ask: the entries"),
        Question::Line => rt.print("ask: the line"),
        Question::Join => rt.print("ask: what the join answers"),
    }
}
