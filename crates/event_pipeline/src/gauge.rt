// Who is shown the engine after its ticks, and what they keep of it.
ghost use Rattle.std.specs.Prelude.{◌≡◌, [], ◌∷◌, ◌++◌, List, Option, Some, None, IsOk, OnOk, OnErr};
ghost use Rattle.shared_buffer.specs.declared.buffer.Held.{Held};
ghost use Rattle.sharing_laws.specs.Sharing.{held_in};
ghost use Rattle.told_list.specs.Grows.{Grows};

use cep_engine::Engine;
use cep_event::{NoMemory, Sequence};
use shared_buffer::Held;
use std::alloc::Global;
use std::marker::Model;

/// The numbers of events, nodes and edges that were held, one after another.
pub type HeldList = Sequence<Held>;

/// Is shown the engine once after each tick that it took, before the items of the tick are told. The tick of time End isn't shown.
pub trait Gauge {
    /// How much was held each time, where that is told.
    ghost seen: { Self → Option (List Held) };

    /// An `Err` says that memory was wanted. Then nothing was added.
    fn tick(&mut self, engine: &Engine) -> Result<(), NoMemory>
        ensures ok { OnOk result (Grows (seen self.old) (seen self.new) (held_in engine.now.buffer ∷ [])) }
        ensures err { OnErr result (seen self.new ≡ seen self.old) };
}

/// Keeps nothing, and tells nothing.
#[derive(Clone, Copy, Debug)]
pub struct NoGauge;

impl Gauge for NoGauge {
    ghost seen = { λ s. None };

    fn tick(&mut self, engine: &Engine) -> Result<(), NoMemory>
        ensures always { IsOk result }
    {
        Ok(())
    }
}

/// Keeps how much was held after each tick.
#[derive(Debug, Drop)]
pub struct MemoryGauge {
    sizes: HeldList,
}

impl Model for MemoryGauge {
    ghost use Rattle.std.specs.Prelude.{List};
    ghost use Rattle.shared_buffer.specs.declared.buffer.Held.{Held};

    ghost Value = { List Held };

    ghost view = { λ gauge. gauge.sizes };
}

impl MemoryGauge {
    /// A gauge that was shown nothing. It takes no memory.
    pub fn new(alloc: Global) -> MemoryGauge
        ensures { result ≡ [] }
    {
        MemoryGauge {
            sizes: HeldList::new(alloc),
        }
    }

    /// How much was held each time, in order.
    pub fn seen(&self) -> &HeldList
        ensures { result.now ≡ self.now }
    {
        &self.sizes
    }
}

impl Gauge for MemoryGauge {
    ghost seen = { λ s. Some s };

    fn tick(&mut self, engine: &Engine) -> Result<(), NoMemory>
        ensures ok { OnOk result (self.new ≡ self.old ++ held_in engine.now.buffer ∷ []) }
        ensures err { OnErr result (self.new ≡ self.old) }
    {
        self.sizes.push(engine.held())
    }
}
