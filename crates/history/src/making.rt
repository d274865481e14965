// One call, made.
ghost use Rattle.std.specs.Prelude.{◌≡◌};
ghost use Rattle.history.specs.Histories.{Made, OwnMade, answer_to};
ghost use Rattle.history.specs.Recorded.{call_of};

use crate::calls::{Answer, Call, Question};
use segment::Segment;

// Makes a call on a segment, with a reply buffer.
// Segment and buffer are no struct, since the law speaks of each alone; and `joint`, here and in a run, relates two states of the segment,
// which no invariant of one can.
pub fn make<S: Segment>(segment: &mut S, call: Call<'_>, reply: &mut [u8]) -> Answer
    ensures own { OwnMade S.Segment.samples S.Segment.transfers S.Segment.answers S.Segment.entries (call_of call.entry) result segment.old reply.old reply.new segment.new }
    ensures effects { Made (S.Segment.joining segment.old) (call_of call.entry) result (S.Segment.entries segment.old) reply.old reply.new (S.Segment.entries segment.new) }
    ensures joint { S.Segment.joining segment.new ≡ S.Segment.joining segment.old }
{
    match call {
        Call::Sample(address, sample) => Answer::Sampled(segment.sample(address, sample)),
        Call::Transfer(address, written, wanted) => {
            Answer::Replied(segment.transfer(address, written, wanted, reply))
        }
        Call::AlertRead(wanted) => Answer::Replied(segment.alert_read(wanted, reply)),
        Call::Ask(question) => ask(segment, question),
    }
}

// Answers a question, which changes nothing.
fn ask<S: Segment>(segment: &S, question: Question) -> Answer
    ensures { result ≡ answer_to (S.Segment.joining segment.now) question (S.Segment.entries segment.now) }
{
    match question {
        Question::Address(address) => Answer::Present(segment.holds(address)),
        Question::Entries => Answer::Entries,
        Question::Line => Answer::Low(segment.line_is_low()),
        Question::Join => Answer::Joined(segment.join_answer()),
    }
}
