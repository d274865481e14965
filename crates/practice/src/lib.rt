// A station for practice: it serves what every station owes, and takes any sample.
#![tactic(auto)]

mod commands;
mod samples;
mod stations;
mod transfers;

pub use stations::PracticeStation;
