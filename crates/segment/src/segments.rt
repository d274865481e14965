// Stations on one alert line, joined in any way.
ghost use Rattle.std.specs.Prelude.{◌≡◌, ℕ, ◌-◌, ◌^◌, ◌≤◌, min, Bool, true, ◌||◌, List, ◌++◌, length, drop, Some, Option, Result, ◌==◌};
ghost use Rattle.smbus.specs.declared.address.Address.{Address};
ghost use Rattle.alert.specs.declared.conditions.Conditions.{Conditions};
ghost use Rattle.alert.specs.declared.entries.Entry.{Entry};
ghost use Rattle.segment.specs.Answers.{BySegment, address_in, join_number};
ghost use Rattle.segment.specs.Segments.{alert_reply, ReadsAlert, Answered, Sampled, Transferred, lowest_pulling, some_pull, stands, written_over};
ghost use Rattle.segment.specs.Winning.{Won};
ghost use Rattle.segment.specs.Words.{join_words};
ghost use Rattle.segment.specs.declared.arbitration.AlertWinner.{AlertWinner};
ghost use Rattle.segment.specs.declared.faults.SegmentFault.{SegmentFault};
ghost use Rattle.segment.specs.declared.samples.Sample.{Sample};
ghost use Rattle.segment.specs.declared.segments.JoinAnswer.{JoinAnswer};

use crate::arbitration::AlertWinner;
use crate::faults::SegmentFault;
use crate::samples::Sample;
use alert::{Conditions, Entry};
use smbus::{Address, code};
use std::fmt;

// The length of a reply, and the set that was raised.
// The project has it as a pair that passes up unchanged from a station through every join.
pub type Reply = (usize, Conditions);

// What a join answers about itself.
#[derive(Clone, Copy, PartialEq, Eq, Debug)]
pub enum JoinAnswer {
    // It has both sides.
    Joined = 0,
    // An address stands on both sides; it has the left side alone.
    Clash = 12,
}

impl JoinAnswer {
    // The number that stands for the answer.
    pub fn number(self) -> u8
        ensures { result ≡ join_number self }
    {
        self as u8
    }
}

// The number of the answer, and what it says. The number is a part of the words; what is printed and the number are each held by an edit.
impl fmt::Display for JoinAnswer {
    ghost output = { λ x. Some (join_words x) };

    fn fmt<W: fmt::Write>(&self, f: &mut fmt::Formatter<W>) -> fmt::Result {
        f.write_str(match *self {
            JoinAnswer::Joined => "0, both sides are joined",
            JoinAnswer::Clash => "12, an address stands on both sides: the left side alone",
        })
    }
}

// A segment means its list of entries, left side first. Each call shows what every station shows, at the first entry with its
// address, and besides follows the own rule of the station that it reached.
// The clauses `still` and `joint` stand at each call: they relate the segment before to the one after, as no invariant of one segment can.
pub trait Segment {
    // One entry for each station, left side first.
    ghost entries: { Self → List Entry };

    // What it answers about the join that it is, if it is one.
    ghost joining: { Self → Option JoinAnswer };

    // The stations' own rule of samples: before, address, sample, answer, after.
    ghost samples: { Self → ℕ → Sample → Result Conditions SegmentFault → Self → Type 0 };

    // Of transfers: before, address, written, wanted, the reply buffer, the answer, the reply buffer then, after.
    ghost transfers: { Self → ℕ → List ℕ → ℕ → List ℕ → Result (ℕ × Conditions) SegmentFault → List ℕ → Self → Type 0 };

    // Of the answer to an alert read: before, the address that answers, after.
    ghost answers: { Self → ℕ → Self → Type 0 };

    // Gives a sample to the station at an address; refused by NoStation, and by the station.
    fn sample(&mut self, address: u8, sample: Sample) -> Result<Conditions, SegmentFault>
        ensures own { samples self.old address sample result self.new }
        ensures effects { Sampled address (entries self.old) result (entries self.new) }
        ensures still { BySegment result → self.new ≡ self.old }
        ensures joint { joining self.new ≡ joining self.old };

    // Performs a transfer with the station at an address; refused by NoStation, NothingWritten and ShortBuffer, and by the station.
    // Written bytes, wanted count and reply buffer are no struct, since the law speaks of each alone; the count is not the buffer's length, which may be greater.
    fn transfer(
        &mut self,
        address: u8,
        written: &[u8],
        wanted: usize,
        reply: &mut [u8],
    ) -> Result<Reply, SegmentFault>
        ensures own { transfers self.old address written.now wanted reply.old result reply.new self.new }
        ensures effects { Transferred address written.now wanted (entries self.old) reply.old result reply.new (entries self.new) }
        ensures still { BySegment result → self.new ≡ self.old }
        ensures joint { joining self.new ≡ joining self.old };

    // Has the station that won an alert read answer it; only an alert read has a winner.
    fn answer(&mut self, winner: AlertWinner) -> Result<(), SegmentFault>
        ensures own { answers self.old winner.address.byte self.new }
        ensures effects { Answered winner.address.byte (entries self.old) result (entries self.new) }
        ensures still { BySegment result → self.new ≡ self.old }
        ensures joint { joining self.new ≡ joining self.old };

    // Whether a station stands at an address.
    fn holds(&self, address: u8) -> bool
        ensures { result ≡ stands address (entries self.now) };

    // The lowest address that pulls, if a station pulls.
    fn lowest_pulling(&self) -> Option<Address>
        ensures { address_in result ≡ lowest_pulling (entries self.now) };

    // How many stations there are, or the greatest number that can be said where there are more.
    fn count(&self) -> usize
        ensures { result ≡ min (length (entries self.now)) (2 ^ 64 - 1) };

    // Writes the entries over the first places of a buffer, as many as fit, and says how many it wrote: a segment does not allocate.
    fn write_entries(&self, into: &mut [Entry]) -> usize
        ensures count { result ≡ min (length (entries self.now)) (length into.old) }
        ensures items { into.new ≡ written_over (entries self.now) into.old };

    // What the join answers; a lone station has no answer.
    fn join_answer(&self) -> Option<JoinAnswer>
        ensures { result ≡ joining self.now };

    // Whether the alert line is low: some station pulls.
    #[tactic(auto, using(crate::proofs::Pulling::address_in_some, crate::proofs::Pulling::lowest_some))]
    fn line_is_low(&self) -> bool
        ensures { result ≡ some_pull (entries self.now) }
    {
        self.lowest_pulling().is_some()
    }

    // Reads the alert response address: refused by AlertCounts, ShortBuffer and NobodyPulls, else the lowest address that pulls answers.
    fn alert_read(&mut self, wanted: usize, reply: &mut [u8]) -> Result<Reply, SegmentFault>
        ensures own { Won (answers self.old) (lowest_pulling (entries self.old)) result self.old self.new }
        ensures effects { ReadsAlert wanted (entries self.old) reply.old result reply.new (entries self.new) }
        ensures joint { joining self.new ≡ joining self.old }
    {
        if !is_alert_count(wanted) {
            return Err(SegmentFault::AlertCounts);
        }
        if reply.len() < wanted {
            return Err(SegmentFault::ShortBuffer);
        }
        let address = self.lowest_pulling().ok_or(SegmentFault::NobodyPulls)?;
        self.answer(AlertWinner::new(address))?;
        write_alert_reply(address, wanted, reply);
        Ok((wanted, Conditions::empty()))
    }
}

// Whether an alert read may want so many bytes: the answering address, alone or with its code.
fn is_alert_count(wanted: usize) -> bool
    ensures { result ≡ (wanted == 1 || wanted == 2) }
{
    matches!(wanted, 1 | 2)
}

// The byte that begins a read of the alert response address, 0Ch.
const ALERT_RESPONSE_READ: u8 = 0x19;

// Writes the reply of the address that answers, with its code where two bytes are wanted.
fn write_alert_reply(address: Address, wanted: usize, reply: &mut [u8])
    requires wanted { (wanted == 1 || wanted == 2) ≡ true }
    requires long { wanted ≤ length reply.old }
    ensures { reply.new ≡ alert_reply address.byte wanted ++ drop wanted reply.old }
{
    let first = address.write_byte();
    reply[0] = first;
    if wanted == 2 {
        reply[1] = code(&[ALERT_RESPONSE_READ, first]);
    }
}
