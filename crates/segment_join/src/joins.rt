// Two segments as one.
ghost use Rattle.std.specs.Prelude.{◌≡◌, true, false, not, ◌&&◌, MatchOption};
ghost use Rattle.segment.specs.Own.{OnSide, side_answer};
ghost use Rattle.segment.specs.Answers.{BySegment, address_in, is_missed};
ghost use Rattle.segment.specs.Segments.{Built, Transferred, clash, joined_entries, lower, stands};

use alert::{Conditions, Entry};
use segment::{AlertWinner, JoinAnswer, Reply, Sample, Segment, SegmentFault};
use smbus::Address;

// A left and a right side on one line. Where an address stands on both, the right side is not on the line.
#[derive(Drop)]
pub struct Join<L, R> {
    left: L,
    right: R,
    // Beside the right side and not an Option of it: a right side that clashes is kept, since letting it go would ask `R: Drop` of callers.
    both: bool,
}

impl<L: Segment, R: Segment> Join<L, R> {
    // Joins two segments: both sides where all addresses are unlike, else the left side alone.
    pub fn new(left: L, right: R) -> Join<L, R>
        ensures left { result.left ≡ left }
        ensures right { result.right ≡ right }
        ensures both { result.both ≡ not (clash (L.Segment.entries left) (R.Segment.entries right)) }
        ensures built { Built (L.Segment.entries left) → Built (R.Segment.entries right) → Built (joined_entries result.both (L.Segment.entries left) (R.Segment.entries right)) }
    {
        let both = fit(&left, &right);
        Join { left, right, both }
    }

    // Whether a call goes on to the right side: there is one, and the call reached no station on the left.
    // The three calls that ask this are written out: a closure for the right side's call is no shorter than its if.
    fn goes_on<A>(&self, answer: &Result<A, SegmentFault>) -> bool
        ensures { result ≡ (self.now.both && is_missed answer.now) }
    {
        self.both && matches!(answer, Err(SegmentFault::NoStation))
    }

    // The right side, where it is on the line.
    fn right_on_line(&self) -> Option<&R>
        ensures { MatchOption result (self.now.both ≡ false) (λ right. (self.now.both ≡ true) × (right.now ≡ self.now.right)) }
    {
        self.both.then_some(&self.right)
    }
}

// Whether all addresses of the two are unlike, so that both can be on one line. Apart from `new`, which takes the two: here they are only asked.
#[tactic(auto, using(crate::proofs::Clashing::built_joined))]
fn fit<L: Segment, R: Segment>(left: &L, right: &R) -> bool
    ensures value { result ≡ not (clash (L.Segment.entries left.now) (R.Segment.entries right.now)) }
    ensures built { Built (L.Segment.entries left.now) → Built (R.Segment.entries right.now) → Built (joined_entries result (L.Segment.entries left.now) (R.Segment.entries right.now)) }
{
    !share_address(left, right)
}

// The addresses of stations are below this one.
const ADDRESSES: u8 = 0x80;

// Whether an address stands on both segments.
fn share_address<L: Segment, R: Segment>(left: &L, right: &R) -> bool
    ensures { result ≡ clash (L.Segment.entries left.now) (R.Segment.entries right.now) }
{
    (0..ADDRESSES).any(|address| left.holds(address) && right.holds(address))
}

// The lower of two addresses, if there is one.
fn lower_address(left: Option<Address>, right: Option<Address>) -> Option<Address>
    ensures { address_in result ≡ lower (address_in left) (address_in right) }
{
    match (left, right) {
        (Some(first), Some(second)) if second.byte() < first.byte() => right,
        _ => left.or(right),
    }
}

// A transfer to the left side, or where no station there has the address, to the right side.
// Apart from the call of the trait, which so is proved from these clauses alone.
fn transfer_sides<L: Segment, R: Segment>(
    join: &mut Join<L, R>,
    address: u8,
    written: &[u8],
    wanted: usize,
    reply: &mut [u8],
) -> Result<Reply, SegmentFault>
    ensures own { OnSide (stands address (L.Segment.entries join.old.left)) join.old.both (L.Segment.transfers join.old.left address written.now wanted reply.old result reply.new join.new.left) (R.Segment.transfers join.old.right address written.now wanted reply.old result reply.new join.new.right) (join.new.left ≡ join.old.left) (join.new.right ≡ join.old.right) }
    ensures effects { Transferred address written.now wanted (joined_entries join.old.both (L.Segment.entries join.old.left) (R.Segment.entries join.old.right)) reply.old result reply.new (joined_entries join.new.both (L.Segment.entries join.new.left) (R.Segment.entries join.new.right)) }
    ensures still { BySegment result → join.new ≡ join.old }
    ensures joint { side_answer join.new.both ≡ side_answer join.old.both }
{
    let answer = join.left.transfer(address, written, wanted, reply);
    if join.goes_on(&answer) {
        return join.right.transfer(address, written, wanted, reply);
    }
    answer
}

impl<L: Segment, R: Segment> Segment for Join<L, R> {
    ghost entries = { λ s. joined_entries s.both (L.Segment.entries s.left) (R.Segment.entries s.right) };

    ghost joining = { λ s. side_answer s.both };

    ghost samples = { λ s a sample r t. OnSide (stands a (L.Segment.entries s.left)) s.both (L.Segment.samples s.left a sample r t.left) (R.Segment.samples s.right a sample r t.right) (t.left ≡ s.left) (t.right ≡ s.right) };

    ghost transfers = { λ s a written wanted before r after t. OnSide (stands a (L.Segment.entries s.left)) s.both (L.Segment.transfers s.left a written wanted before r after t.left) (R.Segment.transfers s.right a written wanted before r after t.right) (t.left ≡ s.left) (t.right ≡ s.right) };

    ghost answers = { λ s a t. OnSide (stands a (L.Segment.entries s.left)) s.both (L.Segment.answers s.left a t.left) (R.Segment.answers s.right a t.right) (t.left ≡ s.left) (t.right ≡ s.right) };

    fn sample(&mut self, address: u8, sample: Sample) -> Result<Conditions, SegmentFault> {
        let answer = self.left.sample(address, sample);
        if self.goes_on(&answer) {
            return self.right.sample(address, sample);
        }
        answer
    }

    fn transfer(
        &mut self,
        address: u8,
        written: &[u8],
        wanted: usize,
        reply: &mut [u8],
    ) -> Result<Reply, SegmentFault> {
        transfer_sides(self, address, written, wanted, reply)
    }

    fn answer(&mut self, winner: AlertWinner) -> Result<(), SegmentFault> {
        let answer = self.left.answer(winner);
        if self.goes_on(&answer) {
            return self.right.answer(winner);
        }
        answer
    }

    #[tactic(auto, using(crate::proofs::Sides::holds_left, crate::proofs::Sides::holds_right))]
    fn holds(&self, address: u8) -> bool {
        self.left.holds(address)
            || self
                .right_on_line()
                .is_some_and(|right| right.holds(address))
    }

    #[tactic(auto, using(segment::proofs::Pulling::lowest_joined))]
    fn lowest_pulling(&self) -> Option<Address> {
        let right = self.right_on_line().and_then(R::lowest_pulling);
        lower_address(self.left.lowest_pulling(), right)
    }

    fn count(&self) -> usize {
        let right = self.right_on_line().map_or(0, R::count);
        self.left.count().saturating_add(right)
    }

    fn write_entries(&self, into: &mut [Entry]) -> usize {
        let start = self.left.write_entries(into);
        if self.both {
            start + self.right.write_entries(&mut into[start..])
        } else {
            start
        }
    }

    fn join_answer(&self) -> Option<JoinAnswer> {
        Some(if self.both {
            JoinAnswer::Joined
        } else {
            JoinAnswer::Clash
        })
    }
}
