//! Saved state: its rows, what keeps them, and what they state.
#![tactic(auto)]

mod counts;
mod keeper;
mod memory;
mod reading;
mod recent;
mod restoring;
mod row;
mod rules;
mod said;
mod save;
mod saved;

pub use keeper::{Keeper, KeeperFault};
pub use memory::{MemoryKeeper, Stored, StoredList};
pub use recent::{Oldest, Recent, Tick, TickList};
pub use restoring::restore;
pub use row::{Cell, CellList, SavedRow, SavedRowList};
pub use save::save_rows;
pub use saved::{EventList, LoadFault, Saved};
