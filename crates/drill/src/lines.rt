// The lines of a history: functions and no Display, since each text is printed in one place, and a type around each would only add an impl to it.
use crate::answering::{level, print_answer};
use crate::asking::print_call;
use alert::Entry;
use history::{Answer, History, Moment, Turn};
use std::io;
use text::Spaced;

// Prints a line for what shows as built, and a line for each turn.
pub fn print_history(rt: &HostRuntime, history: &History<'_>) -> io::Result<()> {
    rt.print("as built")?;
    print_moment(rt, &history.start)?;
    for turn in &history.turns {
        print_turn(rt, turn)?;
    }
    Ok(())
}

// Prints a turn: what was asked, what was answered, and what shows then.
fn print_turn(rt: &HostRuntime, turn: &Turn<'_>) -> io::Result<()> {
    print_call(rt, turn.call)?;
    rt.print(" -> ")?;
    print_answer(rt, turn)?;
    print_moment(rt, &turn.after)?;
    if let Answer::Entries = turn.answer {
        for entry in &turn.after.entries {
            print_entry(rt, entry)?;
        }
    }
    Ok(())
}

// Prints who pulls, and the line.
fn print_moment(rt: &HostRuntime, moment: &Moment) -> io::Result<()> {
    rt.print(" | pulling")?;
    if !moment.low {
        rt.print(" none")?;
    }
    for entry in moment.entries.iter().filter(|entry| entry.pulls()) {
        let address = entry.address().byte();
        print!(rt; " {address:02X}h")?;
    }
    let level = level(moment.low);
    println!(rt; " | line {level}")
}

// Prints an entry: what is latched and answered, the mask, the frame and the black box.
fn print_entry(rt: &HostRuntime, entry: &Entry) -> io::Result<()> {
    let address = entry.address().byte();
    let latched = entry.latched();
    let answered = entry.answered();
    let mask = entry.mask();
    print!(rt; "    {address:02X}h: latched {latched}, answered {answered}, mask {mask:04X}")?;
    let frame = entry.frame().bytes();
    let black_box = entry.box_bytes();
    print_bytes(rt, &frame, &black_box)?;
    rt.println(if entry.is_armed() {
        ", armed"
    } else {
        ", not armed"
    })
}

// Prints the bytes of a frame and of a black box.
fn print_bytes(rt: &HostRuntime, frame: &[u8], black_box: &[u8]) -> io::Result<()> {
    let frame = Spaced(frame);
    let black_box = Spaced(black_box);
    print!(rt; ", frame{frame}, black box{black_box}")
}
