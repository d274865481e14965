// Any two segments as one, proved from their meaning alone.
#![tactic(auto)]

mod joins;

pub use joins::Join;
