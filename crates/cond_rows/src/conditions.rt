//! Conditions with whether they hold, asked of the list of taken events and of kept sums, each as it stands and made ready for the event.
ghost use Rattle.std.specs.Prelude.{IfOk};
ghost use Rattle.cond_sums.specs.Questions.{IsWantedBy};
ghost use Rattle.cond_sums.specs.Kept.{wanted_in};

use cep_event::{Event, NoMemory, Text, Value, ValueList};
use cep_plan::{Plan, Taken, TakenList};
use cond_eval::{ListMatched, holds};
use cond_ready::at_event;
use cond_sums::{Asked, Sums, is_met};
use pattern_file::plan_in;
use std::alloc::Global;
use std::process::Abort;
use std::test::Fail;

/// A trade of a price and a symbol, or an order of a size, a symbol and a price.
#[derive(Clone, Copy)]
pub enum Row {
    Trade(i64, &'static str),
    Order(i64, &'static str, i64),
}

/// What the third stage asks, the events that are taken, each with its stage, and the event that is asked about.
pub struct Case {
    pub condition: &'static str,
    pub taken: &'static [(u16, Row)],
    pub event: Row,
    pub holds: bool,
}

const BEGIN: &str =
    "event Trade(price int, symbol text); event Order(size int, symbol text, price int);
pattern begin(\"a\").oneOrMore().followedBy(\"b\").oneOrMore().followedBy(\"c\")";

pub const TRADE: Row = Row::Trade(6, "IBM");

// Sums are tested at each step.
const SUMS: [Case; 11] = [
    Case {
        condition: ".where(2 + 3 == 5)",
        taken: &[],
        event: TRADE,
        holds: true,
    },
    Case {
        condition: ".where(2 - 3 == -1)",
        taken: &[],
        event: TRADE,
        holds: true,
    },
    Case {
        condition: ".where(9223372036854775807 + 0 == 9223372036854775807)",
        taken: &[],
        event: TRADE,
        holds: true,
    },
    Case {
        condition: ".where((-9223372036854775807 - 1) - 0 == (-9223372036854775807 - 1))",
        taken: &[],
        event: TRADE,
        holds: true,
    },
    Case {
        condition: ".where(-1 - (-9223372036854775807 - 1) == 9223372036854775807)",
        taken: &[],
        event: TRADE,
        holds: true,
    },
    Case {
        condition: ".where(!(9223372036854775807 + 1 == 9223372036854775807 + 1))",
        taken: &[],
        event: TRADE,
        holds: true,
    },
    Case {
        condition: ".where(!(9223372036854775807 - -1 == 9223372036854775807 - -1))",
        taken: &[],
        event: TRADE,
        holds: true,
    },
    Case {
        condition: ".where(!((-9223372036854775807 - 1) - 1 == (-9223372036854775807 - 1) - 1))",
        taken: &[],
        event: TRADE,
        holds: true,
    },
    Case {
        condition: ".where(!((-9223372036854775807 - 1) + -1 == (-9223372036854775807 - 1) + -1))",
        taken: &[],
        event: TRADE,
        holds: true,
    },
    Case {
        condition: ".where(!(0 - (-9223372036854775807 - 1) == 0 - (-9223372036854775807 - 1)))",
        taken: &[],
        event: TRADE,
        holds: true,
    },
    Case {
        condition: ".where(!(9223372036854775807 + 1 - 1 == 9223372036854775807 + 1 - 1))",
        taken: &[],
        event: TRADE,
        holds: true,
    },
];

// Products are tested at each step, a quotient is cut towards zero, and a rest has the sign of the number.
const PRODUCTS: [Case; 21] = [
    Case {
        condition: ".where(6 * -7 == -42)",
        taken: &[],
        event: TRADE,
        holds: true,
    },
    Case {
        condition: ".where(9223372036854775807 * 1 == 9223372036854775807)",
        taken: &[],
        event: TRADE,
        holds: true,
    },
    Case {
        condition: ".where(9223372036854775807 * -1 == -9223372036854775807)",
        taken: &[],
        event: TRADE,
        holds: true,
    },
    Case {
        condition: ".where((-9223372036854775807 - 1) * 1 == (-9223372036854775807 - 1))",
        taken: &[],
        event: TRADE,
        holds: true,
    },
    Case {
        condition: ".where(4294967296 * 2147483647 == 9223372032559808512)",
        taken: &[],
        event: TRADE,
        holds: true,
    },
    Case {
        condition: ".where(4294967296 * -2147483648 == (-9223372036854775807 - 1))",
        taken: &[],
        event: TRADE,
        holds: true,
    },
    Case {
        condition: ".where(7 / 2 == 3)",
        taken: &[],
        event: TRADE,
        holds: true,
    },
    Case {
        condition: ".where(-7 / 2 == -3)",
        taken: &[],
        event: TRADE,
        holds: true,
    },
    Case {
        condition: ".where(7 / -2 == -3)",
        taken: &[],
        event: TRADE,
        holds: true,
    },
    Case {
        condition: ".where(9223372036854775807 / -1 == -9223372036854775807)",
        taken: &[],
        event: TRADE,
        holds: true,
    },
    Case {
        condition: ".where(7 % -2 == 1)",
        taken: &[],
        event: TRADE,
        holds: true,
    },
    Case {
        condition: ".where(-7 % 2 == -1)",
        taken: &[],
        event: TRADE,
        holds: true,
    },
    Case {
        condition: ".where((-9223372036854775807 - 1) % -1 == 0)",
        taken: &[],
        event: TRADE,
        holds: true,
    },
    Case {
        condition: ".where((-9223372036854775807 - 1) % 9223372036854775807 == -1)",
        taken: &[],
        event: TRADE,
        holds: true,
    },
    Case {
        condition: ".where(9223372036854775807 % (-9223372036854775807 - 1) == 9223372036854775807)",
        taken: &[],
        event: TRADE,
        holds: true,
    },
    Case {
        condition: ".where(!((-9223372036854775807 - 1) * -1 == (-9223372036854775807 - 1) * -1))",
        taken: &[],
        event: TRADE,
        holds: true,
    },
    Case {
        condition: ".where(!(4294967296 * 2147483648 == 4294967296 * 2147483648))",
        taken: &[],
        event: TRADE,
        holds: true,
    },
    Case {
        condition: ".where(!(7 / 0 == 7 / 0))",
        taken: &[],
        event: TRADE,
        holds: true,
    },
    Case {
        condition: ".where(!((-9223372036854775807 - 1) / -1 == (-9223372036854775807 - 1) / -1))",
        taken: &[],
        event: TRADE,
        holds: true,
    },
    Case {
        condition: ".where(!(7 % 0 == 7 % 0))",
        taken: &[],
        event: TRADE,
        holds: true,
    },
    Case {
        condition: ".where(!((-9223372036854775807 - 1) / -1 * 0 == (-9223372036854775807 - 1) / -1 * 0))",
        taken: &[],
        event: TRADE,
        holds: true,
    },
];

// A negated number has 64 bits.
const NEGATED: [Case; 2] = [
    Case {
        condition: ".where(-(5) == -5 && -0 == 0 && -(9223372036854775807) == -9223372036854775807)",
        taken: &[],
        event: TRADE,
        holds: true,
    },
    Case {
        condition: ".where(!(-(-9223372036854775807 - 1) == -(-9223372036854775807 - 1)))",
        taken: &[],
        event: TRADE,
        holds: true,
    },
];

// Numbers compare by value, and texts by their bytes.
const COMPARED: [Case; 9] = [
    Case {
        condition: ".where((-9223372036854775807 - 1) < 9223372036854775807 && (-9223372036854775807 - 1) <= 9223372036854775807 && (-9223372036854775807 - 1) != 9223372036854775807 && !((-9223372036854775807 - 1) == 9223372036854775807) && !((-9223372036854775807 - 1) > 9223372036854775807) && !((-9223372036854775807 - 1) >= 9223372036854775807))",
        taken: &[],
        event: TRADE,
        holds: true,
    },
    Case {
        condition: ".where(9223372036854775807 > (-9223372036854775807 - 1) && 9223372036854775807 >= (-9223372036854775807 - 1) && 9223372036854775807 != (-9223372036854775807 - 1) && !(9223372036854775807 == (-9223372036854775807 - 1)) && !(9223372036854775807 < (-9223372036854775807 - 1)) && !(9223372036854775807 <= (-9223372036854775807 - 1)))",
        taken: &[],
        event: TRADE,
        holds: true,
    },
    Case {
        condition: ".where(9223372036854775807 == 9223372036854775807 && 9223372036854775807 >= 9223372036854775807 && 9223372036854775807 <= 9223372036854775807 && !(9223372036854775807 != 9223372036854775807) && !(9223372036854775807 < 9223372036854775807) && !(9223372036854775807 > 9223372036854775807))",
        taken: &[],
        event: TRADE,
        holds: true,
    },
    Case {
        condition: ".where(-1 < 0 && -1 <= 0 && -1 != 0 && !(-1 == 0) && !(-1 > 0) && !(-1 >= 0))",
        taken: &[],
        event: TRADE,
        holds: true,
    },
    Case {
        condition: ".where(\"\" < \"A\" && \"\" <= \"A\" && \"\" != \"A\" && !(\"\" == \"A\") && !(\"\" > \"A\") && !(\"\" >= \"A\"))",
        taken: &[],
        event: TRADE,
        holds: true,
    },
    Case {
        condition: ".where(\"AB\" > \"A\" && \"AB\" >= \"A\" && \"AB\" != \"A\" && !(\"AB\" == \"A\") && !(\"AB\" < \"A\") && !(\"AB\" <= \"A\"))",
        taken: &[],
        event: TRADE,
        holds: true,
    },
    Case {
        condition: ".where(\"Z\" < \"a\" && \"Z\" <= \"a\" && \"Z\" != \"a\" && !(\"Z\" == \"a\") && !(\"Z\" > \"a\") && !(\"Z\" >= \"a\"))",
        taken: &[],
        event: TRADE,
        holds: true,
    },
    Case {
        condition: ".where(\"é\" > \"z\" && \"é\" >= \"z\" && \"é\" != \"z\" && !(\"é\" == \"z\") && !(\"é\" < \"z\") && !(\"é\" <= \"z\"))",
        taken: &[],
        event: TRADE,
        holds: true,
    },
    Case {
        condition: ".where(\"IBM\" == \"IBM\" && \"IBM\" >= \"IBM\" && \"IBM\" <= \"IBM\" && !(\"IBM\" != \"IBM\") && !(\"IBM\" < \"IBM\") && !(\"IBM\" > \"IBM\"))",
        taken: &[],
        event: TRADE,
        holds: true,
    },
];

// Nothing compares true with a field that the event hasn't.
const MISSING: [Case; 3] = [
    Case {
        condition: ".where(!(size == 1) && !(size != 1) && !(size < 1) && !(size <= 1) && !(size > 1) && !(size >= 1))",
        taken: &[],
        event: TRADE,
        holds: true,
    },
    Case {
        condition: ".where(!(1 == size) && !(1 != size) && !(1 < size) && !(1 <= size) && !(1 > size) && !(1 >= size))",
        taken: &[],
        event: TRADE,
        holds: true,
    },
    Case {
        condition: ".where(!(size == size) && !(size != size) && !(size < size) && !(size <= size) && !(size > size) && !(size >= size))",
        taken: &[],
        event: TRADE,
        holds: true,
    },
];

// Truth values.
const TRUTHS: [Case; 8] = [
    Case {
        condition: ".where(false || false)",
        taken: &[],
        event: TRADE,
        holds: false,
    },
    Case {
        condition: ".where(false || true)",
        taken: &[],
        event: TRADE,
        holds: true,
    },
    Case {
        condition: ".where(true || false)",
        taken: &[],
        event: TRADE,
        holds: true,
    },
    Case {
        condition: ".where(false && true)",
        taken: &[],
        event: TRADE,
        holds: false,
    },
    Case {
        condition: ".where(true && false)",
        taken: &[],
        event: TRADE,
        holds: false,
    },
    Case {
        condition: ".where(true && true && true)",
        taken: &[],
        event: TRADE,
        holds: true,
    },
    Case {
        condition: ".where(!false)",
        taken: &[],
        event: TRADE,
        holds: true,
    },
    Case {
        condition: ".where(!true)",
        taken: &[],
        event: TRADE,
        holds: false,
    },
];

// A field is found by its name in each type.
const FIELDS: [Case; 2] = [
    Case {
        condition: ".where(price == (-9223372036854775807 - 1) && symbol == \"IBM\" && !(size == size))",
        taken: &[],
        event: Row::Trade(i64::MIN, "IBM"),
        holds: true,
    },
    Case {
        condition: ".where(price == 9223372036854775807 && symbol == \"SAP\" && size == 7)",
        taken: &[],
        event: Row::Order(7, "SAP", i64::MAX),
        holds: true,
    },
];

// Parts are folded from the left, and how the first is joined isn't read.
const FOLDED: [Case; 7] = [
    Case {
        condition: "",
        taken: &[],
        event: TRADE,
        holds: true,
    },
    Case {
        condition: ".or(false)",
        taken: &[],
        event: TRADE,
        holds: false,
    },
    Case {
        condition: ".or(true)",
        taken: &[],
        event: TRADE,
        holds: true,
    },
    Case {
        condition: ".where(true).where(false)",
        taken: &[],
        event: TRADE,
        holds: false,
    },
    Case {
        condition: ".where(true).or(true).where(false)",
        taken: &[],
        event: TRADE,
        holds: false,
    },
    Case {
        condition: ".where(false).where(false).or(true)",
        taken: &[],
        event: TRADE,
        holds: true,
    },
    Case {
        condition: ".where(false).or(true).where(true)",
        taken: &[],
        event: TRADE,
        holds: true,
    },
];

// The count and each aggregate of a stage.
const AGGREGATES: [Case; 9] = [
    Case {
        condition: ".where(count(\"b\") == 0 && sum(\"b\".price) == 0 && !(min(\"b\".price) == min(\"b\".price)) && !(max(\"b\".price) == max(\"b\".price)) && !(first(\"b\").price == first(\"b\").price) && !(last(\"b\").price == last(\"b\").price))",
        taken: &[],
        event: TRADE,
        holds: true,
    },
    Case {
        condition: ".where(count(\"b\") == 0 && sum(\"b\".price) == 0 && !(min(\"b\".price) == min(\"b\".price)) && !(max(\"b\".price) == max(\"b\".price)) && !(first(\"b\").price == first(\"b\").price) && !(last(\"b\").price == last(\"b\").price))",
        taken: &[(0, Row::Trade(9, ""))],
        event: TRADE,
        holds: true,
    },
    Case {
        condition: ".where(count(\"b\") == 1 && sum(\"b\".price) == (-9223372036854775807 - 1) && min(\"b\".price) == (-9223372036854775807 - 1) && max(\"b\".price) == (-9223372036854775807 - 1) && first(\"b\").price == (-9223372036854775807 - 1) && last(\"b\").price == (-9223372036854775807 - 1))",
        taken: &[(1, Row::Trade(i64::MIN, ""))],
        event: TRADE,
        holds: true,
    },
    Case {
        condition: ".where(count(\"b\") == 1 && sum(\"b\".price) == 9223372036854775807 && min(\"b\".price) == 9223372036854775807 && max(\"b\".price) == 9223372036854775807 && first(\"b\").price == 9223372036854775807 && last(\"b\").price == 9223372036854775807)",
        taken: &[(1, Row::Order(3, "", i64::MAX))],
        event: TRADE,
        holds: true,
    },
    Case {
        condition: ".where(count(\"b\") == 3 && sum(\"b\".price) == 6 && min(\"b\".price) == 1 && max(\"b\".price) == 3 && first(\"b\").price == 3 && last(\"b\").price == 2)",
        taken: &[
            (0, Row::Trade(50, "IBM")),
            (1, Row::Trade(3, "SAP")),
            (1, Row::Order(i64::MIN, "IBM", 1)),
            (1, Row::Trade(2, "é")),
            (2, Row::Trade(-50, "")),
            (0, Row::Order(1, "", 7)),
        ],
        event: TRADE,
        holds: true,
    },
    Case {
        condition: ".where(count(\"b\") == 2 && !(sum(\"b\".price) == sum(\"b\".price)) && min(\"b\".price) == 1 && max(\"b\".price) == 9223372036854775807 && first(\"b\").price == 9223372036854775807 && last(\"b\").price == 1)",
        taken: &[
            (1, Row::Trade(i64::MAX, "a")),
            (1, Row::Order(i64::MAX, "b", 1)),
        ],
        event: TRADE,
        holds: true,
    },
    Case {
        condition: ".where(count(\"b\") == 2 && !(sum(\"b\".price) == sum(\"b\".price)) && min(\"b\".price) == (-9223372036854775807 - 1) && max(\"b\".price) == -1 && first(\"b\").price == (-9223372036854775807 - 1) && last(\"b\").price == -1)",
        taken: &[
            (1, Row::Order(-1, "a", i64::MIN)),
            (0, Row::Trade(1, "")),
            (1, Row::Order(i64::MIN, "", -1)),
        ],
        event: TRADE,
        holds: true,
    },
    Case {
        condition: ".where(count(\"b\") == 4 && sum(\"b\".price) == -2 && min(\"b\".price) == (-9223372036854775807 - 1) && max(\"b\".price) == 9223372036854775807 && first(\"b\").price == 9223372036854775807 && last(\"b\").price == (-9223372036854775807 - 1))",
        taken: &[
            (1, Row::Trade(i64::MAX, "")),
            (1, Row::Trade(i64::MAX, "")),
            (1, Row::Trade(i64::MIN, "")),
            (1, Row::Trade(i64::MIN, "")),
        ],
        event: TRADE,
        holds: true,
    },
    Case {
        condition: ".where(count(\"b\") == 2 && sum(\"b\".price) == 8 && min(\"b\".price) == 4 && max(\"b\".price) == 4 && first(\"b\").price == 4 && last(\"b\").price == 4)",
        taken: &[
            (1, Row::Trade(4, "")),
            (1, Row::Trade(4, "")),
            (0, Row::Trade(7, "")),
        ],
        event: TRADE,
        holds: true,
    },
];

// Of texts only `first` and `last` tell. An order has `size`, and a trade hasn't: `first` and `last` ask the first and the last event, and not those that have it.
const TEXTS: [Case; 3] = [
    Case {
        condition: ".where(first(\"b\").symbol == \"IBM\" && last(\"b\").symbol == \"SAP\")",
        taken: &[
            (1, Row::Trade(1, "IBM")),
            (0, Row::Trade(1, "x")),
            (1, Row::Order(8, "SAP", 2)),
        ],
        event: TRADE,
        holds: true,
    },
    Case {
        condition: ".where(sum(\"b\".size) == 8 && min(\"b\".size) == 8 && max(\"b\".size) == 8 && !(first(\"b\").size == first(\"b\").size) && last(\"b\").size == 8)",
        taken: &[
            (1, Row::Trade(1, "IBM")),
            (0, Row::Trade(1, "x")),
            (1, Row::Order(8, "SAP", 2)),
        ],
        event: TRADE,
        holds: true,
    },
    Case {
        condition: ".where(sum(\"b\".size) == 17 && min(\"b\".size) == 8 && max(\"b\".size) == 9 && last(\"b\").size == 9 && sum(\"b\".price) == 6)",
        taken: &[
            (1, Row::Trade(1, "")),
            (1, Row::Order(8, "", 2)),
            (1, Row::Order(9, "", 3)),
        ],
        event: TRADE,
        holds: true,
    },
];

// The event that is asked about isn't among those taken.
const ASKED_ABOUT: [Case; 4] = [
    Case {
        condition: ".where(price > last(\"b\").price)",
        taken: &[(1, Row::Trade(5, ""))],
        event: TRADE,
        holds: true,
    },
    Case {
        condition: ".where(price > last(\"b\").price)",
        taken: &[(1, Row::Trade(6, ""))],
        event: TRADE,
        holds: false,
    },
    Case {
        condition: ".where(price > last(\"b\").price)",
        taken: &[],
        event: TRADE,
        holds: false,
    },
    Case {
        condition: ".where(price > last(\"b\").price || count(\"b\") == 0)",
        taken: &[],
        event: TRADE,
        holds: true,
    },
];

fn values(alloc: Global, row: Row) -> Result<ValueList, NoMemory> {
    let mut values = ValueList::new(alloc);
    match row {
        Row::Trade(price, symbol) => {
            values.push(Value::Int(price))?;
            values.push(Value::Text(Text::from_str(alloc, symbol)?))?;
        }
        Row::Order(size, symbol, price) => {
            values.push(Value::Int(size))?;
            values.push(Value::Text(Text::from_str(alloc, symbol)?))?;
            values.push(Value::Int(price))?;
        }
    }
    Ok(values)
}

pub fn event(alloc: Global, row: Row) -> Result<Event, NoMemory> {
    let type_no = match row {
        Row::Trade(_, _) => 0,
        Row::Order(_, _, _) => 1,
    };
    let values = values(alloc, row)?;
    Ok(Event {
        row: 1,
        ts: 0,
        type_no,
        values,
    })
}

fn listed(alloc: Global, rows: &[(u16, Row)]) -> Result<TakenList, NoMemory> {
    let mut list = TakenList::new(alloc);
    for (stage, row) in rows {
        let event = event(alloc, *row)?;
        list.push(Taken {
            stage: *stage,
            position: 0,
            event,
        })?;
    }
    Ok(list)
}

fn summed<R: Abort>(
    rt: &R,
    alloc: Global,
    plan: &Plan,
    rows: &[(u16, Row)],
) -> Result<Sums, NoMemory>
    ensures { IfOk result (λ sums. IsWantedBy plan.now (wanted_in sums)) }
{
    assert!(rt; plan.stages.len() < 65536);
    let asked = Asked::of(alloc, plan)?;
    let mut sums = Sums::none(alloc, &asked)?;
    for (stage, row) in rows {
        let event = event(alloc, *row)?;
        assert!(rt; sums.taken() < 100);
        sums = sums.after(plan, *stage, &event)?;
    }
    Ok(sums)
}

fn holds_of_list<R: Abort>(rt: &R, plan: &Plan, event: &Event, list: &TakenList) -> bool {
    assert!(rt; list.len() < 100);
    let taken = ListMatched::new(plan, list);
    match plan.stages.get(2) {
        None => false,
        Some(stage) => holds(plan, &stage.cond, event, &taken),
    }
}

fn ready_of_list<R: Abort>(rt: &R, plan: &Plan, event: &Event, list: &TakenList) -> bool {
    assert!(rt; list.len() < 100);
    let taken = ListMatched::new(plan, list);
    match plan.stages.get(2) {
        None => false,
        Some(stage) => at_event(plan, &stage.cond, event).holds_with(&taken),
    }
}

fn holds_of_sums(plan: &Plan, event: &Event, sums: &Sums) -> bool
    requires { IsWantedBy plan.now (wanted_in sums.now) }
{
    match plan.stages.get(2) {
        None => false,
        Some(stage) => is_met(plan, &stage.cond, event, sums),
    }
}

fn ready_of_sums(plan: &Plan, event: &Event, sums: &Sums) -> bool
    requires { IsWantedBy plan.now (wanted_in sums.now) }
{
    match plan.stages.get(2) {
        None => false,
        Some(stage) => at_event(plan, &stage.cond, event).holds_with(sums),
    }
}

pub fn pattern(alloc: Global, condition: &str) -> Result<Vec<u8>, NoMemory> {
    let mut text = Vec::new(alloc);
    text.extend_from_slice(BEGIN.as_bytes())?;
    text.extend_from_slice(condition.as_bytes())?;
    text.push(b';')?;
    Ok(text)
}

/// Whether the list and the sums answer as the case says, both to the condition and to what was made ready of it.
pub fn is_right<R: Abort>(rt: &R, alloc: Global, case: &Case) -> Result<bool, Fail> {
    let text = pattern(alloc, case.condition)?;
    let plan = plan_in(alloc, &text)?;
    let event = event(alloc, case.event)?;
    let list = listed(alloc, case.taken)?;
    let sums = summed(rt, alloc, &plan, case.taken)?;
    let by_list = holds_of_list(rt, &plan, &event, &list);
    let by_sums = holds_of_sums(&plan, &event, &sums);
    let ready_by_list = ready_of_list(rt, &plan, &event, &list);
    let ready_by_sums = ready_of_sums(&plan, &event, &sums);
    Ok(
        by_list == case.holds
            && by_sums == case.holds
            && ready_by_list == case.holds
            && ready_by_sums == case.holds,
    )
}

fn are_right<R: Abort>(rt: &R, alloc: Global, cases: &[Case]) -> Result<(), Fail> {
    for case in cases {
        assert!(rt; is_right(rt, alloc, case)?, "{}", case.condition);
    }
    Ok(())
}

#[test]
fn sums(rt: HostRuntime) -> Result<(), Fail> {
    are_right(&rt, rt.alloc(), &SUMS)
}

#[test]
fn products(rt: HostRuntime) -> Result<(), Fail> {
    are_right(&rt, rt.alloc(), &PRODUCTS)
}

#[test]
fn negated_numbers(rt: HostRuntime) -> Result<(), Fail> {
    are_right(&rt, rt.alloc(), &NEGATED)
}

#[test]
fn comparisons(rt: HostRuntime) -> Result<(), Fail> {
    are_right(&rt, rt.alloc(), &COMPARED)
}

#[test]
fn missing_fields(rt: HostRuntime) -> Result<(), Fail> {
    are_right(&rt, rt.alloc(), &MISSING)
}

#[test]
fn truth_values(rt: HostRuntime) -> Result<(), Fail> {
    are_right(&rt, rt.alloc(), &TRUTHS)
}

#[test]
fn fields(rt: HostRuntime) -> Result<(), Fail> {
    are_right(&rt, rt.alloc(), &FIELDS)
}

#[test]
fn parts_of_a_condition(rt: HostRuntime) -> Result<(), Fail> {
    are_right(&rt, rt.alloc(), &FOLDED)
}

#[test]
fn aggregates(rt: HostRuntime) -> Result<(), Fail> {
    are_right(&rt, rt.alloc(), &AGGREGATES)
}

#[test]
fn texts_and_sizes(rt: HostRuntime) -> Result<(), Fail> {
    are_right(&rt, rt.alloc(), &TEXTS)
}

#[test]
fn the_event_that_is_asked_about(rt: HostRuntime) -> Result<(), Fail> {
    are_right(&rt, rt.alloc(), &ASKED_ABOUT)
}

const ASKED: &str =
    "event Trade(price int, symbol text); event Order(size int, symbol text, price int);
pattern begin(\"a\").followedBy(\"b\").where(price > last(\"b\").price || count(\"b\") == 0 || first(\"b\").symbol == \"x\")
.oneOrMore().until(min(\"b\".size) - count(\"a\") > 0)
.notNext(\"n\").where(max(\"b\".price) / -first(\"a\").price > 1).followedBy(\"c\"); select last(\"a\").symbol;";

/// Pairs of a stage and a field, those of `until` and of negations too. What `select` asks is none.
#[test]
fn a_plan_asks_each_pair_once_and_in_order(rt: HostRuntime) -> Result<(), Fail> {
    let plan = plan_in(rt.alloc(), ASKED.as_bytes())?;
    assert!(rt; plan.stages.len() < 65536);
    let asked = Asked::of(rt.alloc(), &plan)?;
    let pairs: [(u16, u16); 4] = [(0, 0), (1, 0), (1, 1), (1, 2)];
    assert!(rt; asked.pairs() == pairs.as_slice());
    assert!(rt; asked.counted() == [0u16, 1, 2].as_slice());
    Ok(())
}
