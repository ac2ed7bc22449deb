use cep_event::NoMemory;
use std::alloc::AllocError;

/// Why a part of a file was not read.
#[derive(Clone, Copy, Debug, PartialEq, Eq)]
pub enum Stop {
    NoMemory,
    /// No file goes on with the next token.
    Expected,
    /// A modifier may stand here, and `greedy` does.
    Greedy,
    /// Parentheses open deeper, or a list is longer, than was allowed for.
    Spent,
}

impl From<NoMemory> for Stop {
    ghost use Rattle.std.specs.Prelude.{◌≡◌};
    ghost use Rattle.cep_reading.specs.declared.stop.Stop.TheVariants.{NoMemory as WantOfMemory};

    ghost from_gives = { λ _ stop. stop ≡ WantOfMemory };

    fn from(_error: NoMemory) -> Stop {
        Stop::NoMemory
    }
}

impl From<AllocError> for Stop {
    ghost use Rattle.std.specs.Prelude.{◌≡◌};
    ghost use Rattle.cep_reading.specs.declared.stop.Stop.TheVariants.{NoMemory as WantOfMemory};

    ghost from_gives = { λ _ stop. stop ≡ WantOfMemory };

    fn from(_error: AllocError) -> Stop {
        Stop::NoMemory
    }
}
