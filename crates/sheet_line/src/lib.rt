// A line of the limit sheet, taken apart: a note, a card, a limit, or the place where it has none of these forms.
#![tactic(auto)]

mod decimals;
mod expected;
mod line;
mod names;
mod numbers;
mod pieces;

pub use decimals::decimals_of;
pub use expected::Expected;
pub use line::{Limit, Line, Misfit, read_line};
