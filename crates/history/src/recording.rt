// A run: many calls, and their history as data.
ghost use Rattle.std.specs.Prelude.{◌≡◌, ◌≤◌, true, List, [], map, length, IfOk, vec_capacity, MatchResult};
ghost use Rattle.history.specs.Histories.{OwnMade};
ghost use Rattle.history.specs.Memory.{Blank, Roomy, TurnTaken, TurnsTaken};
ghost use Rattle.history.specs.Recorded.{GoesOn, Lawful, OwnRun, Recorded, call_of, call_part, newest_first, turns_of};

use crate::calls::Call;
use crate::making::make;
use crate::memory::{blank_moment, blank_moments, show};
use crate::moments::{History, Moment, Turn};
use segment::Segment;
use std::alloc::{AllocError, Global};

// Makes the calls in their order, with one reply buffer for all, and returns their history. All memory is got before the first
// call: where it is wanting, nothing is done.
pub fn run<'a, S: Segment>(
    heap: Global,
    segment: &mut S,
    calls: &[Call<'a>],
    reply: &mut [u8],
) -> Result<History<'a>, AllocError>
    ensures recorded { MatchResult result (λ h. Recorded (S.Segment.joining segment.old) (S.Segment.entries segment.old) reply.old calls.now h reply.new (S.Segment.entries segment.new)) (λ _. (segment.new ≡ segment.old) × (reply.new ≡ reply.old)) }
    ensures law { IfOk result (Lawful (S.Segment.entries segment.old)) }
    ensures extends { IfOk result (GoesOn (S.Segment.joining segment.old)) }
    ensures own { IfOk result (λ h. OwnRun (OwnMade S.Segment.samples S.Segment.transfers S.Segment.answers S.Segment.entries) segment.old reply.old (turns_of h) segment.new) }
    ensures joint { S.Segment.joining segment.new ≡ S.Segment.joining segment.old }
{
    let stations = segment.count();
    let mut start = blank_moment(heap, stations, reply)?;
    let blanks = blank_moments(heap, calls.len(), stations, reply)?;
    let turns = Vec::with_capacity(heap, calls.len())?;
    show(segment, reply, &mut start);
    let turns = take_turns(segment, calls, reply, blanks, turns);
    Ok(History { start, turns })
}

// Makes the calls in their order, and writes their turns down in memory that has places for all of them.
fn take_turns<'a, S: Segment>(
    segment: &mut S,
    calls: &[Call<'a>],
    reply: &mut [u8],
    mut blanks: Vec<Moment>,
    mut turns: Vec<Turn<'a>>,
) -> Vec<Turn<'a>>
    requires blank { Blank (length calls.now) (length (S.Segment.entries segment.old)) (length reply.old) blanks.items }
    requires none { turns.items ≡ [] }
    requires room { length calls.now ≤ vec_capacity turns }
    ensures calls { map call_part result.items ≡ calls.now }
    ensures taken { TurnsTaken (S.Segment.joining segment.old) (S.Segment.entries segment.old) reply.old result.items reply.new (S.Segment.entries segment.new) }
    ensures own { OwnRun (OwnMade S.Segment.samples S.Segment.transfers S.Segment.answers S.Segment.entries) segment.old reply.old (newest_first result.items) segment.new }
    ensures joint { S.Segment.joining segment.new ≡ S.Segment.joining segment.old }
{
    for call in calls {
        // From the back, one for each call: zipped with the calls they would be the same, and the invariant would speak of an iterator in place of a Vec.
        let Some(blank) = blanks.pop() else {
            unreachable!();
        };
        let turn = take_turn(segment, *call, reply, blank);
        // There is room for it, as is required.
        let _ = turns.push(turn);
    }
    turns
}

// Makes a call, and writes down its answer and what shows then.
fn take_turn<'a, S: Segment>(
    segment: &mut S,
    call: Call<'a>,
    reply: &mut [u8],
    mut after: Moment,
) -> Turn<'a>
    requires { Roomy (length (S.Segment.entries segment.old)) (length reply.old) after }
    ensures call { result.call ≡ call.entry }
    ensures taken { TurnTaken (S.Segment.joining segment.old) (S.Segment.entries segment.old) reply.old result reply.new (S.Segment.entries segment.new) }
    ensures own { OwnMade S.Segment.samples S.Segment.transfers S.Segment.answers S.Segment.entries (call_of result.call) result.answer segment.old reply.old reply.new segment.new }
    ensures joint { S.Segment.joining segment.new ≡ S.Segment.joining segment.old }
    ensures count { length (S.Segment.entries segment.new) ≡ length (S.Segment.entries segment.old) }
{
    let answer = make(segment, call, reply);
    show(segment, reply, &mut after);
    Turn {
        call,
        answer,
        after,
    }
}
