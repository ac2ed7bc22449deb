ghost use Rattle.std.specs.Prelude.{◌≡◌, ℕ, List, option_and_then};
ghost use Rattle.std.specs.Option.{option_copied};
ghost use Rattle.cep_plan.specs.Answer.{answer_seen, answer_held};
ghost use Rattle.cep_plan.specs.Aggregate.{field_place, field_of};
ghost use Rattle.cond_eval.specs.Known.{number_taken};

use cep_event::{Event, EventType, Value};
use cep_plan::{Taken, Val};

fn field_place(kind: &EventType, field: u16) -> Option<usize>
    ensures { result ≡ field_place kind.now field }
{
    kind.fields
        .as_slice()
        .iter()
        .position(|f| f.number == field)
}

/// What the event holds in the field, where its type has it.
pub fn field_of<'a>(types: &[EventType], field: u16, event: &'a Event) -> Option<&'a Value>
    ensures { option_copied result ≡ field_of types.now field event.now }
{
    let kind = types.get(event.type_no as usize)?;
    let place = field_place(kind, field)?;
    event.values.get(place)
}

pub fn value_held<'a>(types: &[EventType], field: u16, event: Option<&'a Event>) -> Val<'a>
    ensures { answer_seen result ≡ answer_held (option_and_then (field_of types.now field) (option_copied event.entry)) }
{
    let Some(event) = event else {
        return Val::Missing;
    };
    match field_of(types, field, event) {
        Some(Value::Int(number)) => Val::Int(*number),
        Some(Value::Text(text)) => Val::Text(text),
        None => Val::Missing,
    }
}

pub fn number_taken(types: &[EventType], stage: u16, field: u16, taken: &Taken) -> Option<i64>
    ensures { result ≡ number_taken types.now stage field taken.now }
{
    if taken.stage != stage {
        return None;
    }
    match field_of(types, field, &taken.event) {
        Some(Value::Int(number)) => Some(*number),
        _ => None,
    }
}
