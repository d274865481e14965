// One station, of any make.
ghost use Rattle.std.specs.Prelude.{◌≡◌, ℕ, List, Result};
ghost use Rattle.alert.specs.declared.conditions.Conditions.{Conditions};
ghost use Rattle.alert.specs.declared.entries.Entry.{Entry};
ghost use Rattle.request.specs.declared.requests.Request.{Request};
ghost use Rattle.segment.specs.Stations.{Answered, Powered, Sampled, Transferred};
ghost use Rattle.segment.specs.declared.faults.StationFault.{StationFault};
ghost use Rattle.segment.specs.declared.samples.Sample.{Sample};

use crate::faults::StationFault;
use crate::samples::Sample;
use crate::segments::Reply;
use alert::{Conditions, Entry};
use request::Request;

// A station means its entry. Each call shows what every station shows, and besides follows the station's own rule, a relation over
// its states that a concrete station fixes.
pub trait Station {
    // What a segment shows of the station.
    ghost shown: { Self → Entry };

    // The station's own rule of powering up: before, after.
    ghost powers: { Self → Self → Type 0 };

    // Of samples: before, the sample, the answer, after.
    ghost samples: { Self → Sample → Result Conditions StationFault → Self → Type 0 };

    // Of transfers: before, the request, the reply buffer, the answer, the reply buffer then, after.
    ghost transfers: { Self → Request → List ℕ → Result (ℕ × Conditions) StationFault → List ℕ → Self → Type 0 };

    // Of the answer to an alert read: before, after.
    ghost answers: { Self → Self → Type 0 };

    // The station's entry.
    fn entry(&self) -> Entry
        ensures { result ≡ shown self.now };

    // Puts everything as it was built.
    fn power_up(&mut self)
        ensures own { powers self.old self.new }
        ensures effects { Powered (shown self.old) (shown self.new) };

    // Takes a sample, or refuses it by WordOutOfRange or MissingPin.
    fn sample(&mut self, sample: Sample) -> Result<Conditions, StationFault>
        ensures own { samples self.old sample result self.new }
        ensures effects { Sampled (shown self.old) result (shown self.new) };

    // Performs a transfer that wants as many bytes as the reply buffer has, or refuses it by UnknownCommand, WrongCounts, WrongCode or UnlawfulData.
    fn transfer(&mut self, request: Request, reply: &mut [u8]) -> Result<Reply, StationFault>
        ensures own { transfers self.old request reply.old result reply.new self.new }
        ensures effects { Transferred request (shown self.old) reply.old result reply.new (shown self.new) };

    // Answers an alert read.
    fn answer_alert(&mut self)
        ensures own { answers self.old self.new }
        ensures effects { Answered (shown self.old) (shown self.new) };
}
