// A station as a segment of its own.
ghost use Rattle.std.specs.Prelude.{◌≡◌, true, false, [], ◌∷◌, None, ◌==◌, MatchResult};
ghost use Rattle.alert.specs.Entries.{address_of};
ghost use Rattle.segment.specs.Own.{OwnAnswer, OwnSample, OwnTransfer};
ghost use Rattle.segment.specs.Answers.{BySegment};
ghost use Rattle.segment.specs.Segments.{Built, TransferredAt};
ghost use Rattle.segment.specs.declared.faults.SegmentFault.TheVariants.{NoStation};

use alert::{Conditions, Entry};
use request::take_apart;
use segment::{AlertWinner, JoinAnswer, Reply, Sample, Segment, SegmentFault, Station};
use smbus::Address;

// One station on the line.
#[derive(Drop)]
pub struct Single<T> {
    station: T,
}

impl<T: Station> Single<T> {
    // The station on a line of its own, powered up.
    pub fn new(station: T) -> Single<T>
        ensures own { T.Station.powers station result.station }
        ensures built { Built (T.Station.shown result.station ∷ []) }
        ensures address { (T.Station.shown result.station).address ≡ (T.Station.shown station).address }
    {
        let mut single = Single { station };
        single.station.power_up();
        single
    }

    // That a call at an address reaches the station.
    fn reached(&self, address: u8) -> Result<(), SegmentFault>
        ensures { MatchResult result (λ _. (address_of (T.Station.shown self.now.station) == address) ≡ true) (λ fault. ((address_of (T.Station.shown self.now.station) == address) ≡ false) × (fault ≡ NoStation)) }
    {
        if self.holds(address) {
            Ok(())
        } else {
            Err(SegmentFault::NoStation)
        }
    }
}

// A transfer to a station: something must be written, and the reply buffer must be as long as the wanted count; then the station judges.
fn checked_transfer<T: Station>(
    station: &mut T,
    written: &[u8],
    wanted: usize,
    reply: &mut [u8],
) -> Result<Reply, SegmentFault>
    ensures own { OwnTransfer true written.now wanted reply.old (λ q b p c. T.Station.transfers station.old q b p c station.new) result reply.new station.old station.new }
    ensures effects { TransferredAt written.now wanted reply.old result reply.new (T.Station.shown station.old) (T.Station.shown station.new) }
    ensures still { BySegment result → station.new ≡ station.old }
{
    let request = take_apart(written).ok_or(SegmentFault::NothingWritten)?;
    if reply.len() < wanted {
        return Err(SegmentFault::ShortBuffer);
    }
    Ok(station.transfer(request, &mut reply[0..wanted])?)
}

impl<T: Station> Segment for Single<T> {
    ghost entries = { λ s. T.Station.shown s.station ∷ [] };

    ghost joining = { λ _. None };

    ghost samples = { λ s a sample r t. OwnSample (address_of (T.Station.shown s.station) == a) (λ q. T.Station.samples s.station sample q t.station) r s t };

    ghost transfers = { λ s a written wanted before r after t. OwnTransfer (address_of (T.Station.shown s.station) == a) written wanted before (λ q b p c. T.Station.transfers s.station q b p c t.station) r after s t };

    ghost answers = { λ s a t. OwnAnswer (address_of (T.Station.shown s.station) == a) (T.Station.answers s.station t.station) s t };

    fn sample(&mut self, address: u8, sample: Sample) -> Result<Conditions, SegmentFault> {
        self.reached(address)?;
        Ok(self.station.sample(sample)?)
    }

    fn transfer(
        &mut self,
        address: u8,
        written: &[u8],
        wanted: usize,
        reply: &mut [u8],
    ) -> Result<Reply, SegmentFault> {
        self.reached(address)?;
        checked_transfer(&mut self.station, written, wanted, reply)
    }

    fn answer(&mut self, winner: AlertWinner) -> Result<(), SegmentFault> {
        self.reached(winner.address().byte())?;
        self.station.answer_alert();
        Ok(())
    }

    fn holds(&self, address: u8) -> bool {
        self.station.entry().address().byte() == address
    }

    fn lowest_pulling(&self) -> Option<Address> {
        let entry = self.station.entry();
        entry.pulls().then(|| entry.address())
    }

    fn count(&self) -> usize {
        1
    }

    fn write_entries(&self, into: &mut [Entry]) -> usize {
        let Some(first) = into.first_mut() else {
            return 0;
        };
        *first = self.station.entry();
        1
    }

    fn join_answer(&self) -> Option<JoinAnswer> {
        None
    }
}
