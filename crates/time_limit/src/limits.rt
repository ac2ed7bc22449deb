//! Both limits of a pattern: what is kept for each, and what is due first.
ghost use Rattle.std.specs.Prelude.{◌≡◌, ◌++◌, [], ◌∷◌, None, not, filter, OnOk, OnErr};
ghost use Rattle.live_laws.specs.Starts.{is_from};
ghost use Rattle.time_limit.specs.Limits.{limited, first_over, without_first_over, earlier_due, first_due, without_first_due, AreInOrder, AreBefore};

use crate::queue::{Place, drop_places, keep, make_room, take_over};
use cep_event::{Moment, NoMemory};
use cep_plan::Due;
use std::alloc::Global;
use std::collections::VecDeque;
use std::marker::Model;

/// The starts whose time limit isn't reached yet, and the last positions whose gap limit isn't, each in order. Without a limit none is kept.
#[derive(Drop)]
pub struct Limits {
    within: Option<u64>,
    gap: Option<u64>,
    starts: VecDeque<Place>,
    lasts: VecDeque<Place>,
}

impl Model for Limits {
    ghost use Rattle.time_limit.specs.Limits.{Kept, AreInOrder};

    ghost Value = { Kept };

    ghost view = { λ l. record { within = l.within; gap = l.gap; starts = l.starts.items; lasts = l.lasts.items } };

    ghost invariant = { λ l. AreInOrder l.starts.items × AreInOrder l.lasts.items };
}

impl Limits {
    /// Nothing is kept. It takes no memory.
    pub fn new(alloc: Global, within: Option<u64>, gap: Option<u64>) -> Limits
        ensures { result ≡ record { within = within; gap = gap; starts = []; lasts = [] } }
    {
        Limits {
            within,
            gap,
            starts: VecDeque::new(alloc),
            lasts: VecDeque::new(alloc),
        }
    }

    /// Keeps a position as a start and as a last one, for each of the two where there is a limit. It comes behind those that are kept.
    pub fn add(&mut self, position: u32, ts: i64) -> Result<(), NoMemory>
        requires starts { AreBefore position ts self.old.starts }
        requires lasts { AreBefore position ts self.old.lasts }
        ensures ok { OnOk result (self.new
            ≡ record self.old {
              starts = self.old.starts ++ limited self.old.within (record { position = position; ts = ts } ∷ []);
              lasts = self.old.lasts ++ limited self.old.gap (record { position = position; ts = ts } ∷ []);
            }) }
        ensures err { OnErr result (self.new ≡ self.old) }
    {
        make_room(self.within, &mut self.starts)?;
        make_room(self.gap, &mut self.lasts)?;
        let place = Place { position, ts };
        keep(self.within, &mut self.starts, place);
        keep(self.gap, &mut self.lasts, place);
        Ok(())
    }

    /// Takes out the first kept start whose limit is reached at the moment, and where there is none the first such last position. It takes no memory.
    pub fn next_due(&mut self, now: Moment) -> Option<Due>
        ensures due { result ≡ first_due self.old now }
        ensures left { self.new ≡ without_first_due self.old now }
    {
        match take_over(self.within, now, &mut self.starts) {
            Some(position) => Some(Due::Start(position)),
            None => self.next_last(now),
        }
    }

    /// Takes out the first kept last position whose limit is reached at the moment.
    fn next_last(&mut self, now: Moment) -> Option<Due>
        ensures due { result ≡ earlier_due None (first_over self.old.gap now self.old.lasts) }
        ensures left { self.new ≡ record self.old { lasts = without_first_over self.old.gap now self.old.lasts } }
    {
        match take_over(self.gap, now, &mut self.lasts) {
            None => None,
            Some(position) => Some(Due::Last(position)),
        }
    }

    /// Takes out the starts from one position up to another, without the latter. It takes no memory.
    pub fn drop_range(&mut self, from: u32, to: u32)
        ensures { self.new ≡ record self.old { starts = filter (λ s. not (is_from from to s.position)) self.old.starts } }
    {
        drop_places(&mut self.starts, from, to);
    }
}
