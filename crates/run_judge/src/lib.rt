//! What one event makes of one partial match that waits for a stage, by what is kept of its list: whether it may take the event, and whether it goes on
//! waiting without it. What the event alone tells is found once for all that wait for the stage, and so is whether it changes none of them. Besides, the
//! order of lists. It keeps nothing.
#![tactic(auto)]

mod candidate;
mod gap;
mod lists;
mod offer;
mod untouched;

pub use gap::{Fate, Last, judged_list};
pub use lists::{TakenLists, compare, in_order};
pub use offer::{StageAt, stage_at};
