ghost use Rattle.std.specs.Prelude.{◌≡◌, List};
ghost use Rattle.std.specs.Option.{option_copied};
ghost use Rattle.cep_plan.specs.Aggregate.{field_place, field_of};
ghost use Rattle.cep_plan.specs.Keys as keyed;
ghost use Rattle.cep_event.specs.declared.value.Value.{Value};
ghost use Rattle.cep_keeper.specs.Rules as spec;
ghost use Rattle.cep_keeper.specs.Tallies.{Lists};

use crate::counts::Counts;
use crate::reading::Reading;
use crate::said::Said;
use cep_event::{Event, EventType, Field, Kind, Value};
use cep_plan::Plan;

// The first row is of table 1 and no other is. Tables don't fall.
pub(crate) fn may_follow(before: u8, table: u8) -> bool
    ensures { result ≡ spec.may_follow before table }
{
    if before == 0 {
        table == 1
    } else {
        before <= table && table != 1
    }
}

// Whether what the row says keeps the rules, after the rows that state this.
pub(crate) fn keeps(plan: &Plan, reading: &Reading, counts: &Counts, said: &Said) -> bool
    requires { Lists counts.now reading.now.saved.keys }
    ensures { result ≡ spec.keeps plan.now reading.now said.now }
{
    match said {
        Said::Head { .. } => true,
        Said::Key(key) => is_new_key(plan, counts, key),
        Said::Event(event) => {
            comes_next(reading, event.ts)
                && is_event(plan, reading, event)
                && has_known_key(plan, counts, event)
        }
        Said::Mark(time) => comes_next(reading, *time),
        Said::Pending(event) => {
            is_event(plan, reading, event)
                && reading.row < event.row
                && is_above(reading.saved.mark, event.ts)
                && is_reached(reading.saved.greatest, event.ts)
        }
    }
}

fn is_new_key(plan: &Plan, counts: &Counts, key: &Value) -> bool
    ensures { (keys : List Value) → Lists counts.now keys → result ≡ spec.is_new_key plan.now keys key.now }
{
    match key_kind(plan) {
        Some(kind) => is_of(kind, key) && !is_among(counts, key),
        None => false,
    }
}

// The kind of keys, in the first type: all types have the field, with one kind.
fn key_kind(plan: &Plan) -> Option<Kind>
    ensures { result ≡ spec.key_kind plan.now }
{
    let field = plan.by?;
    let of = plan.types.get(0)?;
    let place = field_place(of, field)?;
    kind_at(of.fields.as_slice(), place)
}

fn kind_at(fields: &[Field], place: usize) -> Option<Kind>
    ensures { result ≡ spec.kind_at fields.now place }
{
    let field = fields.get(place)?;
    Some(field.kind)
}

fn is_of(kind: Kind, value: &Value) -> bool
    ensures { result ≡ spec.is_of kind value.now }
{
    match (kind, value) {
        (Kind::Int, Value::Int(_)) => true,
        (Kind::Text, Value::Text(_)) => true,
        _ => false,
    }
}

fn is_among(counts: &Counts, key: &Value) -> bool
    ensures { (keys : List Value) → Lists counts.now keys → result ≡ spec.is_among keys key.now }
{
    counts.of(key).is_some()
}

fn same_value(value: &Value, other: &Value) -> bool
    ensures { result ≡ keyed.same_value value.now other.now }
{
    match (value, other) {
        (Value::Int(number), Value::Int(other)) => *number <= *other && *other <= *number,
        (Value::Text(text), Value::Text(other)) => text.as_str() == other.as_str(),
        _ => false,
    }
}

pub(crate) fn same_key(key: Option<&Value>, other: Option<&Value>) -> bool
    ensures { result ≡ keyed.same_key (option_copied key.entry) (option_copied other.entry) }
{
    match (key, other) {
        (None, None) => true,
        (Some(key), Some(other)) => same_value(key, other),
        _ => false,
    }
}

fn has_known_key(plan: &Plan, counts: &Counts, event: &Event) -> bool
    ensures { (keys : List Value) → Lists counts.now keys → result ≡ spec.has_known_key plan.now keys event.now }
{
    if plan.by.is_none() {
        return true;
    }
    match key_of(plan, event) {
        Some(key) => is_among(counts, key),
        None => false,
    }
}

// What the event holds in the field that the pattern names, if it names one.
pub(crate) fn key_of<'a>(plan: &Plan, event: &'a Event) -> Option<&'a Value>
    ensures { option_copied result ≡ keyed.key_of plan.now event.now }
{
    let field = plan.by?;
    field_of(plan.types.as_slice(), field, event)
}

fn field_of<'a>(types: &[EventType], field: u16, event: &'a Event) -> Option<&'a Value>
    ensures { option_copied result ≡ field_of types.now field event.now }
{
    let of = types.get(event.type_no as usize)?;
    let place = field_place(of, field)?;
    event.values.get(place)
}

fn field_place(of: &EventType, field: u16) -> Option<usize>
    ensures { result ≡ field_place of.now field }
{
    of.fields.as_slice().iter().position(|f| f.number == field)
}

fn is_event(plan: &Plan, reading: &Reading, event: &Event) -> bool
    ensures { result ≡ spec.is_event plan.now reading.now event.now }
{
    has_type(plan.types.as_slice(), event)
        && 0 < event.row
        && event.row <= reading.saved.lines
        && reading.events < reading.saved.lines
}

fn has_type(types: &[EventType], event: &Event) -> bool
    ensures { result ≡ spec.has_type types.now event.now }
{
    match types.get(event.type_no as usize) {
        Some(of) => are_of(of.fields.as_slice(), event.values.as_slice()),
        None => false,
    }
}

// A value of the right kind for each field, and no others.
fn are_of(fields: &[Field], values: &[Value]) -> bool
    ensures { result ≡ spec.are_of fields.now values.now }
{
    if fields.len() != values.len() {
        return false;
    }
    for place in 0..fields.len() {
        if !is_of(fields[place].kind, &values[place]) {
            return false;
        }
    }
    true
}

fn comes_next(reading: &Reading, time: i64) -> bool
    ensures { result ≡ spec.comes_next reading.now time }
{
    is_not_before(reading.time, time) && is_reached(reading.saved.mark, time)
}

fn is_reached(limit: Option<i64>, time: i64) -> bool
    ensures { result ≡ spec.is_reached limit time }
{
    match limit {
        Some(limit) => time <= limit,
        None => false,
    }
}

fn is_not_before(earlier: Option<i64>, time: i64) -> bool
    ensures { result ≡ spec.is_not_before earlier time }
{
    match earlier {
        Some(earlier) => earlier <= time,
        None => true,
    }
}

fn is_above(mark: Option<i64>, time: i64) -> bool
    ensures { result ≡ spec.is_above mark time }
{
    match mark {
        Some(mark) => mark < time,
        None => true,
    }
}
