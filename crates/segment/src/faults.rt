// Why a call is refused: by the station that it reached, or by the segment.
ghost use Rattle.std.specs.Prelude.{◌≡◌, Some};
ghost use Rattle.segment.specs.Faults.{Same, layer_number, layer_of, raised_by, segment_number, segment_raised, station_number};
ghost use Rattle.segment.specs.Requesting.{AsStationFault};
ghost use Rattle.segment.specs.Words.{layer_words, segment_words, station_words};
ghost use Rattle.segment.specs.declared.faults.SegmentFault.TheVariants.{Station};

use alert::Conditions;
use request::RequestRefusal;
use std::fmt;

// Who refused a call.
#[derive(Clone, Copy, PartialEq, Eq, Debug)]
pub enum Layer {
    // The segment itself.
    Segment = 2,
    // The station that the call reached.
    Station = 3,
}

impl Layer {
    // The number that stands for the layer.
    pub fn number(self) -> u8
        ensures { result ≡ layer_number self }
    {
        self as u8
    }
}

// The number of the layer, and its name. The number is a part of the words; what is printed and the number are each held by an edit.
impl fmt::Display for Layer {
    ghost output = { λ x. Some (layer_words x) };

    fn fmt<W: fmt::Write>(&self, f: &mut fmt::Formatter<W>) -> fmt::Result {
        f.write_str(match *self {
            Layer::Segment => "layer 2, the segment",
            Layer::Station => "layer 3, the station",
        })
    }
}

// Refused by the station. A refused transfer raises a set, which the fault holds.
#[derive(Clone, Copy, PartialEq, Eq, Debug)]
pub enum StationFault {
    // The station has no such command.
    UnknownCommand(Conditions),
    // The bytes written and wanted do not fit the command's form.
    WrongCounts(Conditions),
    // A packet error code was written, and it is wrong.
    WrongCode(Conditions),
    // The command does not take these data.
    UnlawfulData(Conditions),
    // A word of the sample is out of its range.
    WordOutOfRange,
    // A pin of the sample is set that the station lacks.
    MissingPin,
}

impl StationFault {
    // The number that stands for the refusal: a match, since a variant that holds a set has no number of its own.
    pub fn number(self) -> u8
        ensures { result ≡ station_number self }
    {
        match self {
            StationFault::UnknownCommand(_) => 4,
            StationFault::WrongCounts(_) => 5,
            StationFault::WrongCode(_) => 6,
            StationFault::UnlawfulData(_) => 7,
            StationFault::WordOutOfRange => 8,
            StationFault::MissingPin => 9,
        }
    }

    // The set that the refused call raised.
    #[tactic(auto, using(crate::proofs::Empties::empty_same))]
    pub fn raised(self) -> Conditions
        ensures { Same result (raised_by self) }
    {
        match self {
            StationFault::UnknownCommand(set)
            | StationFault::WrongCounts(set)
            | StationFault::WrongCode(set)
            | StationFault::UnlawfulData(set) => set,
            StationFault::WordOutOfRange | StationFault::MissingPin => Conditions::empty(),
        }
    }
}

// Why the station refuses, in words.
impl fmt::Display for StationFault {
    ghost output = { λ x. Some (station_words x) };

    fn fmt<W: fmt::Write>(&self, f: &mut fmt::Formatter<W>) -> fmt::Result {
        f.write_str(match *self {
            StationFault::UnknownCommand(_) => "unknown command",
            StationFault::WrongCounts(_) => "wrong counts",
            StationFault::WrongCode(_) => "wrong packet error code",
            StationFault::UnlawfulData(_) => "unlawful data",
            StationFault::WordOutOfRange => "a word is out of range",
            StationFault::MissingPin => "no such pin",
        })
    }
}

// A request that is refused by its counts or its code is a transfer that the station refuses, and raises communication, memory or logic (condition 1).
impl From<RequestRefusal> for StationFault {
    ghost from_gives = { AsStationFault };

    fn from(refusal: RequestRefusal) -> StationFault {
        match refusal {
            RequestRefusal::Counts => StationFault::WrongCounts(Conditions::communication()),
            RequestRefusal::Code => StationFault::WrongCode(Conditions::communication()),
        }
    }
}

// Refused by the segment, or by the station that the call reached.
#[derive(Clone, Copy, PartialEq, Eq, Debug)]
pub enum SegmentFault {
    // No station of the segment has the address.
    NoStation,
    // Nothing is written, not even a command.
    NothingWritten,
    // The reply buffer is shorter than the wanted count.
    ShortBuffer,
    // An alert read wants one byte or two.
    AlertCounts,
    // No station pulls the alert line.
    NobodyPulls,
    // The station that the call reached refuses it.
    Station(StationFault),
}

impl SegmentFault {
    // The number that stands for the refusal: a match, since a station's refusal has the number that the station gave it.
    pub fn number(self) -> u8
        ensures { result ≡ segment_number self }
    {
        match self {
            SegmentFault::NoStation => 1,
            SegmentFault::NothingWritten => 2,
            SegmentFault::ShortBuffer => 3,
            SegmentFault::AlertCounts => 5,
            SegmentFault::NobodyPulls => 10,
            SegmentFault::Station(fault) => fault.number(),
        }
    }

    // Who refused: the segment, or the station.
    pub fn layer(self) -> Layer
        ensures { result ≡ layer_of self }
    {
        match self {
            SegmentFault::NoStation
            | SegmentFault::NothingWritten
            | SegmentFault::ShortBuffer
            | SegmentFault::AlertCounts
            | SegmentFault::NobodyPulls => Layer::Segment,
            SegmentFault::Station(_) => Layer::Station,
        }
    }

    // The set that the refused call raised.
    #[tactic(auto, using(crate::proofs::Empties::empty_same))]
    pub fn raised(self) -> Conditions
        ensures { Same result (segment_raised self) }
    {
        match self {
            SegmentFault::Station(fault) => fault.raised(),
            SegmentFault::NoStation
            | SegmentFault::NothingWritten
            | SegmentFault::ShortBuffer
            | SegmentFault::AlertCounts
            | SegmentFault::NobodyPulls => Conditions::empty(),
        }
    }
}

// Why the call is refused, in words: a station's refusal in the station's own.
impl fmt::Display for SegmentFault {
    ghost output = { λ x. Some (segment_words x) };

    fn fmt<W: fmt::Write>(&self, f: &mut fmt::Formatter<W>) -> fmt::Result {
        match *self {
            SegmentFault::NoStation => f.write_str("no station at that address"),
            SegmentFault::NothingWritten => f.write_str("nothing is written"),
            SegmentFault::ShortBuffer => f.write_str("the reply buffer is too short"),
            SegmentFault::AlertCounts => f.write_str("an alert read wants one byte or two"),
            SegmentFault::NobodyPulls => f.write_str("nobody pulls"),
            SegmentFault::Station(fault) => fault.fmt(f),
        }
    }
}

// A station's refusal is passed up.
impl From<StationFault> for SegmentFault {
    ghost from_gives = { λ fault r. r ≡ Station fault };

    fn from(fault: StationFault) -> SegmentFault {
        SegmentFault::Station(fault)
    }
}
