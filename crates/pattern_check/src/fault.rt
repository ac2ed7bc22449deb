use cep_event::NoMemory;
use thiserror::Error;

/// Why a pattern file is refused: a rule is broken, first at the place, which is a byte offset from 0. Of the broken rules the one with the lowest code is told.
#[derive(Clone, Copy, Debug, PartialEq, Eq, Error)]
pub enum CheckFault {
    #[error("no memory")]
    NoMemory,
    #[error("code {code} at byte {place}")]
    Bad { place: u32, code: u8 },
}

impl From<NoMemory> for CheckFault {
    ghost use Rattle.std.specs.Prelude.{◌≡◌};
    ghost use Rattle.pattern_check.specs.declared.fault.CheckFault.TheVariants.{NoMemory as WantOfMemory};

    ghost from_gives = { λ _ fault. fault ≡ WantOfMemory };

    fn from(_error: NoMemory) -> CheckFault {
        CheckFault::NoMemory
    }
}
