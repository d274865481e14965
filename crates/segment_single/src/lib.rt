// One station of any make as a segment of its own.
#![tactic(auto)]

mod singles;

pub use singles::Single;
