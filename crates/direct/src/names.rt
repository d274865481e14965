// A text that is the name of nothing that was looked for.
#[derive(Clone, Copy, PartialEq, Eq, Debug)]
pub struct UnknownName;
