ghost use Rattle.std.specs.Prelude.{◌≡◌, ◌≢◌, ◌≤◌, List, ℕ, Some, Ok, Err, length, take, IfOk, IsErrOf};
ghost use Rattle.cep_outside.specs.Outside.{Rose};
ghost use Rattle.cep_session.specs.declared.status.Status.{Status};
ghost use Rattle.nfa_compile.specs.Explained.{explained};
ghost use Rattle.pattern_file.specs.Checked.{ArePlannedAs, ArePrintedAs};
ghost use Rattle.pattern_file.specs.Usable.{IsUsable};
ghost use Rattle.cep_cli.specs.Pattern.{AreExplainedAs, AreShownAs, Tells};
ghost use Rattle.cep_cli.specs.Stop.{IsToldBy};

use cep_event::{NoMemory, Text};
use cep_outside::{Files, FilesFault};
use cep_plan::Plan;
use cep_session::Status;
use nfa_compile::{compile, explain};
use pattern_file::{PatternFault, plan_in, printed_in};
use std::alloc::Global;

// One byte more than the longest file has, so that a longer one shows.
const ROOM: usize = 65_537;

/// What is printed of a pattern file.
#[derive(Clone, Copy, Debug, PartialEq, Eq)]
pub(crate) enum Form {
    /// The file in its one form.
    File,
    /// The table of the states that a run may be in.
    States,
}

/// Why a pattern file comes to nothing.
#[derive(Clone, Copy, Debug, PartialEq, Eq)]
pub(crate) enum PatternStop {
    NoMemory,
    Failed,
    Refused { place: u32, code: u8 },
}

impl PatternStop {
    ghost use Rattle.cep_cli.specs.Stop.{IsToldBy};

    /// The status that tells of it.
    pub(crate) fn status(self) -> Status
        ensures told { IsToldBy self result }
    {
        match self {
            PatternStop::NoMemory => Status::NoMemory,
            PatternStop::Failed => Status::PatternFault,
            PatternStop::Refused { place, code } => Status::PatternRefused { code, place },
        }
    }
}

fn plan_from(alloc: Global, bytes: &[u8]) -> Result<Plan, PatternStop>
    ensures told { Tells (ArePlannedAs bytes.now) result }
    ensures usable { IfOk result IsUsable }
    ensures read { result ≢ Err PatternStop.Failed }
{
    match plan_in(alloc, bytes) {
        Ok(plan) => Ok(plan),
        Err(PatternFault::NoMemory) => Err(PatternStop::NoMemory),
        Err(PatternFault::Bad { place, code }) => Err(PatternStop::Refused { place, code }),
    }
}

// The file that the bytes are, in its one form.
fn printed_from(alloc: Global, bytes: &[u8]) -> Result<Text, PatternStop>
    ensures told { Tells (ArePrintedAs bytes.now) result }
    ensures read { result ≢ Err PatternStop.Failed }
{
    match printed_in(alloc, bytes) {
        Ok(text) => Ok(text),
        Err(PatternFault::NoMemory) => Err(PatternStop::NoMemory),
        Err(PatternFault::Bad { place, code }) => Err(PatternStop::Refused { place, code }),
    }
}

// The table of the plan's states.
fn table_of(alloc: Global, plan: &Plan) -> Result<Text, NoMemory>
    requires { IsUsable plan.now }
    ensures { IfOk result (λ text. text ≡ explained plan.now) }
{
    let nfa = compile(alloc, plan)?;
    explain(alloc, &nfa, plan)
}

// The table of the states of the plan that the bytes are.
fn explained_from(alloc: Global, bytes: &[u8]) -> Result<Text, PatternStop>
    ensures told { Tells (AreExplainedAs bytes.now) result }
    ensures read { result ≢ Err PatternStop.Failed }
{
    let plan = plan_from(alloc, bytes)?;
    match table_of(alloc, &plan) {
        Ok(text) => Ok(text),
        Err(_) => Err(PatternStop::NoMemory),
    }
}

fn text_from(alloc: Global, form: Form, bytes: &[u8]) -> Result<Text, PatternStop>
    ensures told { Tells (AreShownAs form bytes.now) result }
    ensures read { result ≢ Err PatternStop.Failed }
{
    match form {
        Form::File => printed_from(alloc, bytes),
        Form::States => explained_from(alloc, bytes),
    }
}

fn new_room(alloc: Global) -> Result<Vec<u8>, NoMemory>
    ensures { IfOk result (λ room. length room.items ≡ 65537) }
{
    let room = vec![in alloc; 0u8; ROOM]?;
    Ok(room)
}

fn plan_into<F: Files>(
    alloc: Global,
    files: &mut F,
    name: &str,
    room: &mut [u8],
) -> Result<Plan, PatternStop>
    requires { length room.old ≡ 65537 }
    ensures told { (content : List ℕ) → F.contents files.old name.now ≡ Some content → Tells (ArePlannedAs content) result }
    ensures usable { IfOk result IsUsable }
    ensures failed { IsErrOf result PatternStop.Failed → Rose (F.faults files.old name.now) (F.faults files.new name.now) }
    ensures later { (other : List ℕ) → F.faults files.old other ≤ F.faults files.new other }
{
    match files.load(name, room) {
        Ok(count) => plan_from(alloc, &room[..count]),
        Err(FilesFault::NoMemory) => Err(PatternStop::NoMemory),
        Err(FilesFault::Failed) => Err(PatternStop::Failed),
    }
}

fn text_into<F: Files>(
    alloc: Global,
    form: Form,
    files: &mut F,
    name: &str,
    room: &mut [u8],
) -> Result<Text, PatternStop>
    requires { length room.old ≡ 65537 }
    ensures told { (content : List ℕ) → F.contents files.old name.now ≡ Some content → Tells (AreShownAs form content) result }
    ensures failed { IsErrOf result PatternStop.Failed → Rose (F.faults files.old name.now) (F.faults files.new name.now) }
    ensures later { (other : List ℕ) → F.faults files.old other ≤ F.faults files.new other }
{
    match files.load(name, room) {
        Ok(count) => text_from(alloc, form, &room[..count]),
        Err(FilesFault::NoMemory) => Err(PatternStop::NoMemory),
        Err(FilesFault::Failed) => Err(PatternStop::Failed),
    }
}

/// The plan that is run for the pattern file with the name. `Failed` comes only where the files refused it.
pub(crate) fn load_plan<F: Files>(
    alloc: Global,
    files: &mut F,
    name: &str,
) -> Result<Plan, PatternStop>
    ensures told { (content : List ℕ) → F.contents files.old name.now ≡ Some content → Tells (ArePlannedAs content) result }
    ensures usable { IfOk result IsUsable }
    ensures failed { IsErrOf result PatternStop.Failed → Rose (F.faults files.old name.now) (F.faults files.new name.now) }
    ensures later { (other : List ℕ) → F.faults files.old other ≤ F.faults files.new other }
{
    match new_room(alloc) {
        Ok(mut room) => plan_into(alloc, files, name, &mut room),
        Err(_) => Err(PatternStop::NoMemory),
    }
}

/// The text in a form for the pattern file with the name. `Failed` comes only where the files refused it.
pub(crate) fn load_text<F: Files>(
    alloc: Global,
    form: Form,
    files: &mut F,
    name: &str,
) -> Result<Text, PatternStop>
    ensures told { (content : List ℕ) → F.contents files.old name.now ≡ Some content → Tells (AreShownAs form content) result }
    ensures failed { IsErrOf result PatternStop.Failed → Rose (F.faults files.old name.now) (F.faults files.new name.now) }
    ensures later { (other : List ℕ) → F.faults files.old other ≤ F.faults files.new other }
{
    match new_room(alloc) {
        Ok(mut room) => text_into(alloc, form, files, name, &mut room),
        Err(_) => Err(PatternStop::NoMemory),
    }
}
