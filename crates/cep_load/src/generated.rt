ghost use Rattle.std.specs.Prelude.{◌≡◌, ◌↔◌, ℕ, ◌+◌, List, [], ◌∷◌, ◌++◌, IfOk, OnErr, IsNone, IsOk, Ok, length, map, option_to_list};
ghost use Rattle.cep_load.specs.Lines.{generated_lines};
ghost use Rattle.cep_load.specs.Named.{AreNamed};
ghost use Rattle.cep_load.specs.Read.{read_from};
ghost use Rattle.cep_load.specs.Records.{generated_records};
ghost use Rattle.cep_records.specs.Record.{record_of_line};

use crate::text::push_line;
use cep_event::{ByteList, EventType, NoMemory};
use cep_plan::Plan;
use cep_rows::Line;
use std::alloc::Global;
use std::marker::Model;

/// Lines that are generated one by one from a seed, seen as the list of those that are still to come.
///
/// Line i, from 1 to the count, is an event at time i. A draw chooses its type, and then each field takes a draw of its own.
/// Where no type is declared, line i is a mark at time i, and there is no draw.
#[derive(Drop)]
pub struct Generated<'plan> {
    alloc: Global,
    types: &'plan [EventType],
    told: u32,
    count: u32,
    state: u64,
}

impl<'plan> Model for Generated<'plan> {
    ghost use Rattle.std.specs.Prelude.{ℕ, ◌+◌, ◌-◌, ◌≤◌, List};
    ghost use Rattle.cep_load.specs.Lines.{lines_from};

    ghost Value = { List (List ℕ) };

    ghost view = { λ g. lines_from g.types.now (g.count - g.told) (g.told + 1) g.state };

    ghost invariant = { λ g. g.told ≤ g.count };
}

impl<'plan> Generated<'plan> {
    /// As many lines as the count, from this seed. None of them is refused where the types have names that a line can show.
    pub fn new(alloc: Global, plan: &'plan Plan, seed: u64, count: u32) -> Generated<'plan>
        ensures lines { result ≡ generated_lines plan.now.types seed count }
        ensures count { length result ≡ count }
        ensures read { AreNamed plan.now.types
            → read_from plan.now.types 1 result ≡ map Ok (generated_records plan.now.types seed count) }
        ensures accepted { AreNamed plan.now.types → (before after : List (List ℕ)) (line : List ℕ)
            → result ≡ before ++ line ∷ after → IsOk (record_of_line plan.now.types (length before + 1) line) }
    {
        Generated {
            alloc,
            types: plan.types.as_slice(),
            told: 0,
            count,
            state: seed,
        }
    }

    /// The next line, and none once all were told.
    pub fn next_line(&mut self) -> Result<Option<Line>, NoMemory>
        ensures next { IfOk result (λ line. self.old ≡ option_to_list line ++ self.new) }
        ensures none { IfOk result (λ line. IsNone line ↔ (self.old ≡ [])) }
        ensures err { OnErr result (self.new ≡ self.old) }
    {
        if self.told == self.count {
            return Ok(None);
        }
        let types = self.types;
        let number = self.told + 1;
        let mut text = ByteList::new(self.alloc);
        let state = push_line(&mut text, types, number, self.state)?;
        self.told = number;
        self.state = state;
        Ok(Some(Line::from_vec(text.into_vec())))
    }
}
