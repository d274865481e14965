// The limit sheet: what each of its lines is answered, and what is printed of the whole.
#![tactic(auto)]

mod answers;
mod printing;
mod sheet;

pub use answers::{
    Answer, Monitor, PlacedCard, Refusal, SetLimit, Setting, WordWrite, answer_line,
};
pub use printing::print_answer;
pub use sheet::sheet_of;
