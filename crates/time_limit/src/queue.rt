//! A queue of places, in order, whose time limit isn't reached yet.
ghost use Rattle.std.specs.Prelude.{◌≡◌, ◌≤◌, ◌<◌, ◌++◌, [], ◌∷◌, Bool, true, not, length, filter, take, drop, int_le, OnOk, OnErr, IsSome};
ghost use Rattle.std.specs.List.{AllByRecursion as Each};
ghost use Rattle.std.specs.VecDeque.{deque_len, deque_capacity};
ghost use Rattle.live_laws.specs.Starts.{is_from};
ghost use Rattle.time_limit.specs.Limits.{limited, is_over, is_front_over, first_over, without_first_over, AreInOrder};

use cep_event::{Moment, NoMemory};
use std::collections::VecDeque;

/// Where lists start, or end: the position of the event there, and its time in milliseconds.
#[derive(Clone, Copy, Debug, PartialEq, Eq)]
pub struct Place {
    pub position: u32,
    pub ts: i64,
}

/// Whether the limit that the event there sets is reached at the moment.
pub fn is_reached(limit: Option<u64>, now: Moment, place: &Place) -> bool
    ensures { result ≡ is_over limit now place.now }
{
    match limit {
        None => false,
        Some(limit) => match now {
            Moment::End => true,
            Moment::At(time) => place.ts as i128 + limit as i128 <= time as i128,
        },
    }
}

/// Whether the limit of the first place is reached at the moment.
pub fn is_front_reached(limit: Option<u64>, now: Moment, places: &VecDeque<Place>) -> bool
    ensures { result ≡ is_front_over limit now places.now.items }
{
    match places.front() {
        None => false,
        Some(place) => is_reached(limit, now, place),
    }
}

/// Takes out the first place whose limit is reached at the moment. Times don't fall, so it is the front or none.
pub fn take_over(limit: Option<u64>, now: Moment, places: &mut VecDeque<Place>) -> Option<u32>
    requires { AreInOrder places.old.items }
    ensures due { result ≡ first_over limit now places.old.items }
    ensures left { places.new.items ≡ without_first_over limit now places.old.items }
    ensures order { AreInOrder places.new.items }
{
    if !is_front_reached(limit, now, places) {
        return None;
    }
    match places.pop_front() {
        None => None,
        Some(place) => Some(place.position),
    }
}

/// Makes room for one more place, where there is a limit.
pub fn make_room(limit: Option<u64>, places: &mut VecDeque<Place>) -> Result<(), NoMemory>
    ensures same { places.new.items ≡ places.old.items }
    ensures room { OnOk result (IsSome limit → deque_len places.new < deque_capacity places.new) }
{
    if limit.is_some() {
        places.reserve(1)?;
    }
    Ok(())
}

/// Keeps the place behind the others, where there is a limit. It takes no memory.
pub fn keep(limit: Option<u64>, places: &mut VecDeque<Place>, place: Place)
    requires { IsSome limit → deque_len places.old < deque_capacity places.old }
    ensures { places.new.items ≡ places.old.items ++ limited limit (place ∷ []) }
{
    if limit.is_some() {
        match places.push_back(place) {
            Ok(()) => {}
            Err(_) => unreachable!(),
        }
    }
}

/// How many of the places are before the position.
pub fn place_of(places: &VecDeque<Place>, position: u32) -> usize
    requires { AreInOrder places.now.items }
    ensures bound { result ≤ length places.now.items }
    ensures before { Each (λ s. s.position < position) (take result places.now.items) }
    ensures behind { Each (λ s. position ≤ s.position) (drop result places.now.items) }
{
    places.partition_point(|place| place.position < position)
}

/// Takes out what stands between the two indices.
pub fn drop_between(places: &mut VecDeque<Place>, first: usize, end: usize)
    requires order { first ≤ end }
    requires bound { end ≤ length places.old.items }
    ensures { places.new.items ≡ take first places.old.items ++ drop end places.old.items }
{
    // To take out none would still turn the queue.
    if first < end {
        places.drain(first..end);
    }
}

/// Takes out the places from one position up to another, without the latter. It takes no memory.
pub fn drop_places(places: &mut VecDeque<Place>, from: u32, to: u32)
    requires { AreInOrder places.old.items }
    ensures left { places.new.items ≡ filter (λ s. not (is_from from to s.position)) places.old.items }
    ensures order { AreInOrder places.new.items }
{
    if from < to {
        let first = place_of(places, from);
        let end = place_of(places, to);
        drop_between(places, first, end);
    }
}
