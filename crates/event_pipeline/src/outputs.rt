ghost use Rattle.std.specs.Prelude.{ℕ, ◌<◌, ◌≤◌, ◌^◌, length};
ghost use Rattle.cep_event.specs.declared.event.Event.{Event};
ghost use Rattle.cep_plan.specs.declared.plan.Plan.{Plan};
ghost use Rattle.cep_plan.specs.Skipping.{list_in};
ghost use Rattle.event_pipeline.specs.declared.outputs.TellFault.{TellFault};
ghost use Rattle.event_pipeline.specs.Told.{Told, late_told, item_told};
ghost use Rattle.event_pipeline.specs.Telling.{IsTold};

use cep_plan::{Item, Plan};

/// Why not all was told.
#[derive(Clone, Copy, Debug, PartialEq, Eq)]
pub enum TellFault {
    /// Memory was wanted.
    NoMemory,
    /// What the outputs go to refused.
    Failed,
}

/// Makes something of late events and kept items, one after another, which goes to a `T`.
pub trait Outputs<T> {
    /// Under this plan, being told this led from the one to the other.
    ghost tells: { Plan → Self × T → Self × T → Told → Type 0 };

    /// The same, where telling it stopped for the fault.
    ghost stops: { Plan → TellFault → Self × T → Self × T → Told → Type 0 };

    /// An event is late. The number is its row.
    fn late(&mut self, to: &mut T, row: u32) -> Result<(), TellFault>
        ensures { (plan : Plan) → IsTold (tells plan) (stops plan) (self.old, to.old) (self.new, to.new) (late_told row) result };

    /// An item is kept.
    fn item(&mut self, to: &mut T, plan: &Plan, item: &Item) -> Result<(), TellFault>
        requires few { length plan.now.stages ≤ 65536 }
        requires short { length (list_in item.now) < 2 ^ 32 }
        ensures { IsTold (tells plan.now) (stops plan.now) (self.old, to.old) (self.new, to.new) (item_told item.now) result };
}
