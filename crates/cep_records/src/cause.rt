use cep_event::NoMemory;
use cep_rows::RowCause;

/// Why a line has no record.
#[derive(Clone, Copy, Debug, PartialEq, Eq)]
pub enum RowFault {
    NoMemory,
    Bad(RowCause),
}

impl From<NoMemory> for RowFault {
    ghost use Rattle.std.specs.Prelude.{◌≡◌};
    ghost use Rattle.cep_records.specs.declared.cause.RowFault.TheVariants.{NoMemory as WantOfMemory};

    ghost from_gives = { λ _ fault. fault ≡ WantOfMemory };

    fn from(_error: NoMemory) -> RowFault {
        RowFault::NoMemory
    }
}
