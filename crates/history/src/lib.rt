// Calls to a segment, their history, and the law that every history keeps.
#![tactic(auto)]

mod calls;
mod example;
mod making;
mod memory;
mod moments;
mod recording;

pub use calls::{Answer, Call, Question};
pub use example::example_is_a_history;
pub use making::make;
pub use moments::{History, Moment, Turn};
pub use recording::run;
