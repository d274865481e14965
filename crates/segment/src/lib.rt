// Stations of any make on one alert line: what every station shows, and how stations are joined.
#![tactic(auto)]

mod arbitration;
mod faults;
mod samples;
mod segments;
mod stations;

pub use arbitration::AlertWinner;
pub use faults::{Layer, SegmentFault, StationFault};
pub use samples::Sample;
pub use segments::{JoinAnswer, Reply, Segment};
pub use stations::Station;
