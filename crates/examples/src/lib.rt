// Worked examples: what the defined calls answer on given input, as one table that is proved and that the calls are made for.
#![tactic(auto)]

#[cfg(test)]
mod tests;
mod worked;

pub use worked::{WorkedExamples, worked_examples};
