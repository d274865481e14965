// What a station has to do with the alert line: its conditions, its black box, and the entry that shows both.
#![tactic(auto)]

mod alerts;
mod boxes;
mod conditions;
mod entries;
mod frames;

pub use alerts::AlertRecord;
pub use boxes::{BlackBox, BoxState};
pub use conditions::Conditions;
pub use entries::Entry;
pub use frames::Frame;
