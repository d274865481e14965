// DIRECT conversions of the feed monitors LM25066, LM5064 and LM5056: what a register's word means, and which word a value has.
// Nothing here allocates.
#![tactic(auto)]

mod cards;
mod conversions;
mod lines;
mod names;
mod quantities;
mod refusals;
mod tables;

pub use cards::{Card, CurrentLimit, Kind};
pub use conversions::ReadBack;
pub use names::UnknownName;
pub use quantities::{LimitRegister, Quantity};
pub use refusals::ConversionRefusal;
