ghost use Rattle.std.specs.Prelude.{◌≡◌, ◌≤◌, length, IfOk};
ghost use Rattle.cep_syntax.specs.WellFormed.{IsWellFormed};
ghost use Rattle.cep_print.specs.File.{printed};
ghost use Rattle.cep_print.specs.ReadBack.{Denotes, IsShallow, GivesBack};

use crate::declaration::put_types;
use crate::pattern::put_pattern;
use crate::tail::{put_select, put_skip};
use cep_event::{NoMemory, Text};
use cep_syntax::{File, SyntaxFault, read};
use std::alloc::Global;

/// The file in its one form, which `read` accepts where the file is well formed. The form is this project's own.
///
/// Each type stands on a line, the pattern on one line, then the skip and the select, where the file has them. Parentheses stand exactly where they are needed.
pub fn print(alloc: Global, file: &File) -> Result<Text, NoMemory>
    ensures { IfOk result (λ text. text ≡ printed file.now) }
{
    let mut out = String::new(alloc);
    put_types(&mut out, file.types.as_slice())?;
    put_pattern(
        alloc,
        &mut out,
        file.openers.as_slice(),
        &file.within,
        &file.within_gap,
    )?;
    put_skip(alloc, &mut out, &file.skip)?;
    put_select(alloc, &mut out, &file.select)?;
    Text::from_str(alloc, out.as_str())
}

/// What is read of the printed file: a file that is the same but for its places, where the file is well formed, its text has at most 65,536 bytes and at most 32 parentheses are open in it. Such a text is never refused. The law is this project's own.
pub fn read_back(alloc: Global, file: &File) -> Result<File, SyntaxFault>
    ensures denotes { IsWellFormed file.now → Denotes (printed file.now) file.now }
    ensures same { IsWellFormed file.now
        → length (printed file.now) ≤ 65536
        → IsShallow (printed file.now)
        → GivesBack file.now result }
{
    match print(alloc, file) {
        Ok(text) => read(alloc, text.as_str().as_bytes()),
        Err(NoMemory) => Err(SyntaxFault::NoMemory),
    }
}
