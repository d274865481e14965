// Why a transfer is refused.
ghost use Rattle.std.specs.Prelude.{◌≡◌};
ghost use Rattle.request.specs.Refusals.{number_of};

// Which judgement a transfer fails.
#[derive(Clone, Copy, PartialEq, Eq, Debug)]
pub enum RequestRefusal {
    // The bytes written and wanted do not fit the form.
    Counts = 5,
    // A packet error code is written, and it is wrong.
    Code = 6,
}

impl RequestRefusal {
    // The number that stands for the refusal.
    pub fn number(self) -> u8
        ensures { result ≡ number_of self }
    {
        self as u8
    }
}
