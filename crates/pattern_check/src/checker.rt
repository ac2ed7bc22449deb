//! The checker's call.

ghost use Rattle.std.specs.Prelude.{◌≡◌, IfOk};
ghost use Rattle.cep_syntax.specs.WellFormed.{IsWellFormed};
ghost use Rattle.pattern_check.specs.Answer.{IsAnswer};
ghost use Rattle.pattern_check.specs.Checked.{IsChecked};
ghost use Rattle.pattern_check.specs.Sound.{HasSoundExpressions};
ghost use Rattle.pattern_check.specs.Names.{HasDistinctNames};
ghost use Rattle.pattern_check.specs.FieldNumbers.{HasNumberedFields};
ghost use Rattle.pattern_check.specs.Places.{IsPlaced};
ghost use Rattle.pattern_check.specs.Sorts.{HasSorts};

use crate::fault::CheckFault;
use crate::plan::plan_with;
use cep_plan::Plan;
use cep_syntax::File;
use pattern_rules::{fault_in, known_fields};
use std::alloc::Global;

/// The plan of a file that breaks no rule, or the lowest code whose rule it breaks, with the first place where it does.
///
/// The file is well formed, as each file is that `read` gives. The operations, quantifiers and skip strategies are those of the FlinkCEP chapter of the Flink manual; the rules with their codes and limits are this project's own.
#[tactic(auto, unfolding(crate::specs::Plan::plan_of))]
pub fn check(alloc: Global, file: &File) -> Result<Plan, CheckFault>
    requires { IsWellFormed file.now }
    ensures answer { IsAnswer file.now result }
    ensures checked { IfOk result IsChecked }
    ensures sound { IfOk result HasSoundExpressions }
    ensures named { IfOk result HasDistinctNames }
    ensures numbered { IfOk result HasNumberedFields }
    ensures placed { IfOk result IsPlaced }
    ensures sorted { IfOk result HasSorts }
{
    let fields = known_fields(alloc, file.types.as_slice())?;
    let fault = fault_in(alloc, file, &fields)?;
    match fault {
        Some(fault) => Err(CheckFault::Bad {
            place: fault.place,
            code: fault.code,
        }),
        None => {
            let plan = plan_with(alloc, &fields, file)?;
            Ok(plan)
        }
    }
}
