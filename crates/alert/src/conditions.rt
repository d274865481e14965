// Sets of conditions, numbers 0 to 16.
ghost use Rattle.std.specs.Prelude.{◌^◌, ◌<◌};

mod operations;
mod printing;

// A set of conditions: bit c is 1 where the condition c is in it, and nothing above 16 can be.
#[derive(Clone, Copy, PartialEq, Eq, Debug)]
pub struct Conditions {
    pub(crate) bits: u32,
    ghost few: { bits < 2 ^ 17 },
}
