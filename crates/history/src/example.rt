// An example with every kind of call and of answer: histories exist, and the law speaks of something.
ghost use Rattle.std.specs.Prelude.{◌≡◌, length};
ghost use Rattle.history.specs.Example.{joining, start, turns};
ghost use Rattle.history.specs.Histories.{History};

// How many turns the example has, which is a history.
pub fn example_is_a_history() -> u8
    ensures example { History joining start turns }
    ensures turns { result ≡ length turns }
{
    shown();
    20
}

// Does nothing: its contract is what is shown.
fn shown()
    ensures { History joining start turns }
{}
