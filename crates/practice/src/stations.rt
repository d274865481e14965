// The station for practice.
ghost use Rattle.std.specs.Prelude.{◌≡◌};
ghost use Rattle.practice.specs.Practice.{Answered, Answers, AsFirst, Powers, Samples, Transfers};

use crate::samples::take;
use crate::transfers::{conclude, serve};
use alert::{Conditions, Entry, Frame};
use request::Request;
use segment::{Reply, Sample, Station, StationFault};
use smbus::Address;

// Its entry, and what it was built from: the set that is latched first, and the mask.
#[derive(Clone, Copy)]
pub struct PracticeStation {
    entry: Entry,
    first: Conditions,
    mask: u16,
}

impl PracticeStation {
    // A station as built: the first set is latched, nothing is answered, and the frame is zero.
    pub fn new(address: Address, first: Conditions, mask: u16) -> PracticeStation
        ensures first { result.first ≡ first }
        ensures mask { result.mask ≡ mask }
        ensures entry { AsFirst address first mask result.entry }
    {
        PracticeStation {
            entry: Entry::new(address, first, mask, Frame::from([0; 6])),
            first,
            mask,
        }
    }
}

impl Station for PracticeStation {
    ghost shown = { λ s. s.entry };

    ghost powers = { Powers };

    ghost samples = { Samples };

    ghost transfers = { Transfers };

    ghost answers = { Answers };

    fn entry(&self) -> Entry {
        self.entry
    }

    fn power_up(&mut self) {
        *self = PracticeStation::new(self.entry.address(), self.first, self.mask);
    }

    fn sample(&mut self, sample: Sample) -> Result<Conditions, StationFault> {
        Ok(take(&mut self.entry, sample))
    }

    fn transfer(&mut self, request: Request, reply: &mut [u8]) -> Result<Reply, StationFault> {
        let answer = serve(&mut self.entry, request, reply);
        conclude(&mut self.entry, answer);
        answer
    }

    #[tactic(auto, using(crate::proofs::Shown::answered))]
    fn answer_alert(&mut self) {
        answer(&mut self.entry);
    }
}

// Answers an alert read; on the entry alone, as `serve`.
fn answer(entry: &mut Entry)
    ensures { Answered entry.old entry.new }
{
    entry.answer();
    entry.apply_box_rule();
}
