// What is asked of a segment, and what it answers.
use alert::Conditions;
use segment::{JoinAnswer, Reply, Sample, SegmentFault};

// A question, which changes nothing.
#[derive(Clone, Copy)]
pub enum Question {
    // Is the address on the segment?
    Address(u8),
    // All entries: they show at the end of every turn.
    Entries,
    // Is the alert line low?
    Line,
    // What does the join answer?
    Join,
}

// One call.
#[derive(Clone, Copy)]
pub enum Call<'a> {
    // A sample to an address.
    Sample(u8, Sample),
    // A transfer to an address: what is written, and how many bytes are wanted.
    Transfer(u8, &'a [u8], usize),
    // An alert read that wants so many bytes.
    AlertRead(usize),
    // A question.
    Ask(Question),
}

// What is answered.
#[derive(Clone, Copy)]
pub enum Answer {
    // To a sample: the set that it raised, or the refusal.
    Sampled(Result<Conditions, SegmentFault>),
    // To a transfer or an alert read: the length of the reply and the set that was raised, or the refusal.
    Replied(Result<Reply, SegmentFault>),
    // Whether a station stands at the address.
    Present(bool),
    // The entries, which show at the end of the turn.
    Entries,
    // Whether the line is low.
    Low(bool),
    // What the join answers, if the segment is one.
    Joined(Option<JoinAnswer>),
}
