// A transfer to a station: what the host wrote, taken apart; which counts fit a form; the check of a written code; a reply with its code.
#![tactic(auto)]

mod forms;
mod judging;
mod refusals;
mod replies;
mod requests;

pub use forms::Form;
pub use judging::{Access, judge};
pub use refusals::RequestRefusal;
pub use replies::write_reply;
pub use requests::{DataBytes, Request, take_apart};
