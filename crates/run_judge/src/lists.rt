//! Lists of taken events in the order in which they are told.
ghost use Rattle.std.specs.Prelude.{◌≡◌, IfOk};
ghost use Rattle.std.specs.List.Sorted.{IsSortedBy, IsPermutation};
ghost use Rattle.cep_plan.specs.Entry.{entries_in};
ghost use Rattle.cep_plan.specs.Order.{list_cmp};
ghost use Rattle.live_laws.specs.Starts.{comes_earlier};

use cep_event::{NoMemory, Sequence};
use cep_plan::TakenList;
use std::cmp::Ordering;

pub type TakenLists = Sequence<TakenList>;

/// The place of one list in order against another.
pub fn compare(list: &TakenList, other: &TakenList) -> Ordering
    ensures { result ≡ list_cmp (entries_in list.now) (entries_in other.now) }
{
    let list = list.as_slice();
    let other = other.as_slice();
    for place in 0..list.len().min(other.len()) {
        let entry = (list[place].position, list[place].stage);
        match entry.cmp(&(other[place].position, other[place].stage)) {
            Ordering::Less => return Ordering::Less,
            Ordering::Greater => return Ordering::Greater,
            Ordering::Equal => {}
        }
    }
    list.len().cmp(&other.len())
}

/// The lists in order.
pub fn in_order(lists: TakenLists) -> Result<TakenLists, NoMemory>
    ensures permutation { IfOk result (λ made. IsPermutation lists made) }
    ensures sorted { IfOk result (λ made. IsSortedBy comes_earlier made) }
{
    let mut lists = lists.into_vec();
    lists.sort_by(|list, other| compare(list, other))?;
    Ok(TakenLists::from_vec(lists))
}
