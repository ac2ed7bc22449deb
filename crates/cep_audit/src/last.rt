//! The last of taken events.
ghost use Rattle.std.specs.Prelude.{◌≡◌};
ghost use Rattle.std.specs.Option.{option_copied};
ghost use Rattle.cep_plan.specs.Entry.{last_taken};

use cep_plan::{Taken, TakenList};

pub fn last_in(taken: &[Taken]) -> Option<&Taken>
    ensures { option_copied result ≡ last_taken taken.now }
{
    taken.last()
}

pub fn last_of(taken: &TakenList) -> Option<&Taken>
    ensures { option_copied result ≡ last_taken taken.now }
{
    last_in(taken.as_slice())
}
