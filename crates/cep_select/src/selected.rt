ghost use Rattle.std.specs.Prelude.{◌≡◌, ◌<◌, ◌^◌, ◌++◌, None, OnOk, length};
ghost use Rattle.std.specs.Fmt.{signed_decimal};
ghost use Rattle.csv.specs.Writing.{default_writer, fields_text};
ghost use Rattle.cep_plan.specs.Answer.{answer_seen};
ghost use Rattle.cep_plan.specs.Value.{value_of};
ghost use Rattle.cep_select.specs.Output.{answer_text, selected};
ghost use Rattle.cep_select.specs.Pieces.{next_field};

use crate::field::{push_field, push_signed};
use cep_event::{ByteList, NoMemory};
use cep_plan::{Expr, Plan, TakenList, Val};
use cond_eval::{ListMatched, value};

// A comma and a number.
fn push_int(text: &mut ByteList, number: i64) -> Result<(), NoMemory>
    ensures { OnOk result (text.new ≡ text.old ++ next_field (signed_decimal number)) }
{
    text.push(b',')?;
    push_signed(text, number)?;
    Ok(())
}

// A comma and a value.
fn push_value(text: &mut ByteList, value: Val<'_>) -> Result<(), NoMemory>
    ensures { OnOk result (text.new ≡ text.old ++ next_field (answer_text (answer_seen value.entry))) }
{
    match value {
        Val::Int(number) => push_int(text, number),
        Val::Text(letters) => push_field(text, letters.as_str().as_bytes()),
        Val::Bool(_) | Val::Missing => text.push(b','),
    }
}

fn value_in<'a>(plan: &'a Plan, expr: &'a Expr, taken: &'a ListMatched<'a>) -> Val<'a>
    requires { taken.now.types ≡ plan.now.types }
    ensures { answer_seen result ≡ value_of plan.now.types None taken.now.list expr.now }
{
    value(plan, expr, None, taken)
}

/// The values that these expressions have for a match.
pub(crate) fn push_selected(
    text: &mut ByteList,
    plan: &Plan,
    exprs: &[Expr],
    list: &TakenList,
) -> Result<(), NoMemory>
    requires { length list.now < 2 ^ 32 }
    ensures { OnOk result (text.new ≡ text.old ++ fields_text default_writer (selected plan.now.types list.now exprs.now)) }
{
    let taken = ListMatched::new(plan, list);
    for expr in exprs {
        push_value(text, value_in(plan, expr, &taken))?;
    }
    Ok(())
}
