ghost use Rattle.league.specs.Refusals.{refusal_number};
ghost use Rattle.std.specs.Prelude.{◌≡◌};

// Why a step of a sheet is refused, with the refusal's number.
#[derive(Clone, Copy, Debug, PartialEq, Eq)]
pub enum SheetRefusal {
    // The bytes handed in are too few, or not as many as the sheet began with.
    WrongSize = 40,
}

impl SheetRefusal {
    // The refusal's number.
    pub fn number(&self) -> u32
        ensures { result ≡ refusal_number self.now }
    {
        *self as u32
    }
}

// Where no one goes on with the step that comes back, the refusal alone is told.
impl<S: Drop> From<(S, SheetRefusal)> for SheetRefusal {
    ghost from_gives = { λ back refusal. refusal ≡ back.1 };

    fn from(back: (S, SheetRefusal)) -> SheetRefusal {
        back.1
    }
}
