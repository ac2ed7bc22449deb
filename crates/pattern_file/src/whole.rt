ghost use Rattle.std.specs.Prelude.{◌≡◌, IfOk};
ghost use Rattle.cep_syntax.specs.WellFormed.{IsWellFormed};
ghost use Rattle.pattern_file.specs.Answers.{Answers, IsFileOf, IsPlanOf, IsPrinted, IsTextOf};
ghost use Rattle.pattern_file.specs.Checked.{ArePlannedAs, ArePrintedAs};
ghost use Rattle.pattern_file.specs.Usable.{IsUsable};

use crate::fault::PatternFault;
use cep_event::Text;
use cep_plan::Plan;
use cep_print::print;
use cep_syntax::{File, SyntaxFault, read};
use pattern_check::{CheckFault, check};
use std::alloc::Global;

// The file that the bytes are.
fn file_of(alloc: Global, bytes: &[u8]) -> Result<File, PatternFault>
    ensures read { Answers (IsFileOf bytes.now) result }
    ensures formed { IfOk result IsWellFormed }
{
    match read(alloc, bytes) {
        Ok(file) => Ok(file),
        Err(SyntaxFault::NoMemory) => Err(PatternFault::NoMemory),
        Err(SyntaxFault::Bad { place, code }) => Err(PatternFault::Bad { place, code }),
    }
}

// The plan of the file.
fn plan_of(alloc: Global, file: &File) -> Result<Plan, PatternFault>
    requires { IsWellFormed file.now }
    ensures told { Answers (IsPlanOf file.now) result }
    ensures usable { IfOk result IsUsable }
{
    match check(alloc, file) {
        Ok(plan) => Ok(plan),
        Err(CheckFault::NoMemory) => Err(PatternFault::NoMemory),
        Err(CheckFault::Bad { place, code }) => Err(PatternFault::Bad { place, code }),
    }
}

/// The plan that is run for the bytes of a pattern file.
pub fn plan_in(alloc: Global, bytes: &[u8]) -> Result<Plan, PatternFault>
    ensures told { Answers (ArePlannedAs bytes.now) result }
    ensures usable { IfOk result IsUsable }
{
    match file_of(alloc, bytes) {
        Ok(file) => plan_of(alloc, &file),
        Err(fault) => Err(fault),
    }
}

// The text of the file.
fn text_of(alloc: Global, file: &File) -> Result<Text, PatternFault>
    ensures { Answers (IsPrinted file.now) result }
{
    match print(alloc, file) {
        Ok(text) => Ok(text),
        Err(_) => Err(PatternFault::NoMemory),
    }
}

// The text of the file, if it breaks no rule.
fn checked_text(alloc: Global, file: &File) -> Result<Text, PatternFault>
    requires { IsWellFormed file.now }
    ensures { Answers (IsTextOf file.now) result }
{
    match plan_of(alloc, file) {
        Ok(_) => text_of(alloc, file),
        Err(fault) => Err(fault),
    }
}

/// The bytes of a pattern file in its one printed form.
pub fn printed_in(alloc: Global, bytes: &[u8]) -> Result<Text, PatternFault>
    ensures { Answers (ArePrintedAs bytes.now) result }
{
    match file_of(alloc, bytes) {
        Ok(file) => checked_text(alloc, &file),
        Err(fault) => Err(fault),
    }
}
