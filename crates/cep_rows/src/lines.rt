ghost use Rattle.std.specs.Prelude.{◌≡◌, ◌↔◌, ◌<◌, ◌≤◌, ◌-◌, [], ◌++◌, length, take, drop, IfOk, OnOk, OnErr, IsTrue, IsNone, IfSome, MatchOption};
ghost use Rattle.cep_rows.specs.Feed.{HasNoFeed, IsCutAt};
ghost use Rattle.cep_rows.specs.Lines.{Gives};

use crate::line::{LIMIT, Line, Next};
use cep_event::NoMemory;
use std::alloc::Global;
use std::marker::Model;

/// Bytes that came and aren't handed out as lines yet, and which of them were searched for a line feed.
#[derive(Drop)]
pub struct Lines {
    alloc: Global,
    bytes: Vec<u8>,
    start: usize,
    searched: usize,
}

impl Model for Lines {
    ghost use Rattle.std.specs.Prelude.{List, ℕ, drop};

    ghost Value = { List ℕ };

    ghost use Rattle.cep_rows.specs.Kept.{IsKept};

    ghost view = { λ lines. drop lines.start lines.bytes.items };

    ghost invariant = { IsKept };
}

impl Lines {
    pub fn new(alloc: Global) -> Lines
        ensures { result ≡ [] }
    {
        Lines {
            alloc,
            bytes: Vec::new(alloc),
            start: 0,
            searched: 0,
        }
    }

    pub fn is_empty(&self) -> bool
        ensures { IsTrue result ↔ (self.now ≡ []) }
    {
        self.left().is_empty()
    }

    // The bytes that aren't handed out yet.
    fn left(&self) -> &[u8]
        ensures { result.now ≡ self.now }
    {
        &self.bytes[self.start..]
    }

    pub fn feed(&mut self, piece: &[u8]) -> Result<(), NoMemory>
        ensures ok { OnOk result (self.new ≡ self.old ++ piece.now) }
        ensures err { OnErr result (self.new ≡ self.old) }
    {
        self.make_room();
        self.bytes.extend_from_slice(piece)?;
        Ok(())
    }

    // Drops the bytes that were handed out, once they are more than those that weren't: so each byte moves a few times at most.
    fn make_room(&mut self)
        ensures { self.new ≡ self.old }
    {
        if self.start > self.bytes.len() / 2 {
            drop_front(&mut self.bytes, self.start);
            self.start = 0;
        }
    }

    /// Takes out the next line, if all of it has come.
    pub fn next_line(&mut self) -> Result<Next, NoMemory>
        ensures ok { IfOk result (Gives self.old self.new) }
        ensures err { OnErr result (self.new ≡ self.old) }
    {
        let left = &self.bytes[self.start..];
        match place_of_feed(left, self.searched) {
            Some(place) => {
                let bytes = Vec::from_slice(self.alloc, &left[..place])?;
                self.start += place + 1;
                self.searched = 0;
                Ok(Next::Line(Line::from_vec(bytes)))
            }
            None => {
                let count = left.len();
                self.searched = count.min(LIMIT + 1);
                if count > LIMIT {
                    Ok(Next::TooLong)
                } else {
                    Ok(Next::NotYet)
                }
            }
        }
    }

    /// What stands after the last line feed, as a line.
    pub fn rest(self) -> Option<Line>
        requires { HasNoFeed self × (length self ≤ 65536) }
        ensures none { IsNone result ↔ (self ≡ []) }
        ensures some { IfSome result (λ line. line ≡ self) }
    {
        let Lines {
            alloc: _,
            mut bytes,
            start,
            searched: _,
        } = self;
        drop_front(&mut bytes, start);
        if bytes.is_empty() {
            None
        } else {
            Some(Line::from_vec(bytes))
        }
    }
}

fn drop_front(bytes: &mut Vec<u8>, count: usize)
    requires { count ≤ length bytes.old.items }
    ensures { bytes.new.items ≡ drop count bytes.old.items }
{
    let left = bytes.len() - count;
    bytes.rotate_left(count);
    bytes.truncate(left);
}

// Where the first line feed stands, if it ends a line within the limit. The front that was searched has none.
fn place_of_feed(bytes: &[u8], searched: usize) -> Option<usize>
    requires within { searched ≤ length bytes.now }
    requires limit { searched ≤ 65537 }
    requires none { HasNoFeed (take searched bytes.now) }
    ensures { MatchOption result (HasNoFeed (take 65537 bytes.now)) (λ place. IsCutAt place bytes.now × (place ≤ 65536)) }
{
    let window = bytes.len().min(LIMIT + 1);
    first_feed(&bytes[..window], searched)
}

fn first_feed(bytes: &[u8], searched: usize) -> Option<usize>
    requires within { searched ≤ length bytes.now }
    requires none { HasNoFeed (take searched bytes.now) }
    ensures { MatchOption result (HasNoFeed bytes.now) (λ place. IsCutAt place bytes.now) }
{
    for place in searched..bytes.len() {
        if bytes[place] == b'\n' {
            return Some(place);
        }
    }
    None
}
