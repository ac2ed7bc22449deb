ghost use Rattle.std.specs.Prelude.{◌≡◌, ◌≢◌, ◌≤◌, ◌⊎◌, List, ℕ, Some, Result, Ok, Err, map, string_bytes};
ghost use Rattle.cep_outside.specs.Outside.{DidNotRise, Rose};
ghost use Rattle.cep_plan.specs.declared.plan.Plan.{Plan};
ghost use Rattle.cep_session.specs.Handling.{given};
ghost use Rattle.cep_session.specs.Progress.{Ended};
ghost use Rattle.pattern_rules.specs.declared.rule.Fault.{Fault};
ghost use Rattle.pattern_file.specs.Checked.{ArePlannedAs};
ghost use Rattle.cep_words.specs.declared.options.Options.{Options};
ghost use Rattle.cep_words.specs.Words.{command_of};
ghost use Rattle.cep_cli.specs.Headline.{AreAbout, AreWordsJudged, IsBlamed, IsNoted, IsPatternJudged, NoneFell, WentWell};
ghost use Rattle.cep_cli.specs.Load.{load_sizes, load_summary};
ghost use Rattle.cep_cli.specs.Pattern.{AreRefused, AreShownAs, AreShownIn, AreSummedAs};
ghost use Rattle.cep_cli.specs.Meaning.{meaning_of};
ghost use Rattle.cep_rows.specs.Lines.{raw_lines};
ghost use Rattle.cep_session.specs.Meaning.{verdict};
ghost use Rattle.pattern_file.specs.Usable.{IsUsable};
ghost use Rattle.cep_cli.specs.Verdict.{IsVerdict, IsShownVerdict, IfUnread, IfBegun, IfOfInput, HasPrinted, HasShown, show_verdict};

use crate::load::load_summary;
use crate::pattern::{Form, load_plan, load_text};
use crate::run::EngineRun;
use cep_outside::{Files, Sink, Source, write_all};
use cep_plan::Plan;
use cep_session::{Status, run, tell};
use cep_words::{Mode, Options, WordsFault, command};
use event_pipeline::Gauge;
use pattern_file::unique_answers;
use std::alloc::Global;

/// Does all that the program does, and answers how it ended. The words are those after the program's name.
pub fn cep<F: Files, S: Source, K: Sink, N: Sink, G: Gauge>(
    alloc: Global,
    words: &[String],
    files: &mut F,
    input: &mut S,
    output: &mut K,
    notes: &mut N,
    gauge: &mut G,
) -> Status
    // Words are refused only where they are no command, and such words come to nothing else. Then nothing is touched.
    ensures words { AreWordsJudged (map string_bytes words.now) result
        ((files.new ≡ files.old) × (input.new ≡ input.old) × (output.new ≡ output.old) × (gauge.new ≡ gauge.old)) }

    // A pattern is refused only for its own bytes, and one that is to be refused comes to nothing else. Then the input, the output
    // and the gauge are as they were, their counts too, with every status.
    ensures pattern { (options : Options) (name content : List ℕ) → AreAbout (map string_bytes words.now) (F.contents files.old) options name content
        → IsPatternJudged (AreRefused options.mode content) result ((input.new ≡ input.old) × (output.new ≡ output.old) × (gauge.new ≡ gauge.old)) }

    // And so they are with each status that comes before the pattern is accepted.
    ensures untouched { IfUnread result ((input.new ≡ input.old) × (output.new ≡ output.old) × (gauge.new ≡ gauge.old)) }

    // What a run of an accepted pattern printed, and what it showed the gauge, at each status. Only what it says of the bytes printed
    // asks that the output tells its own, and only what it says of the sizes shown that the gauge tells them.
    ensures ran { (options : Options) (name content all : List ℕ) (plan : Plan)
        → AreAbout (map string_bytes words.now) (F.contents files.old) options name content
        → options.mode ≡ Mode.Run → ArePlannedAs content (Ok plan) → S.left input.old ≡ Some all
        → Ended (meaning_of options.header options.lag plan) options.rows result all (S.left input.new)
        (given (K.taken output.old) (G.seen gauge.old)) (given (K.taken output.new) (G.seen gauge.new)) }

    // What another mode printed: `check` the pattern in its one form, `explain` the table of its states, and `load` the summary of a run
    // over the lines that the options ask for.
    ensures showed { (options : Options) (name content text : List ℕ) → AreAbout (map string_bytes words.now) (F.contents files.old) options name content
        → AreShownIn options.mode options content (Ok text)
        → HasPrinted result (K.taken output.old) (K.taken output.new) text }

    // A load shows the gauge how much is held after each tick of its run, and no other of these modes shows it anything.
    ensures loaded { (options : Options) (name content : List ℕ) (plan : Plan)
        → AreAbout (map string_bytes words.now) (F.contents files.old) options name content
        → options.mode ≡ Mode.Load → ArePlannedAs content (Ok plan)
        → HasShown result (G.seen gauge.old) (G.seen gauge.new) (load_sizes options plan) }
    ensures unshown { (options : Options) (name : List ℕ) → command_of (map string_bytes words.now) ≡ Some (options, name)
        → options.mode ≢ Mode.Run → options.mode ≢ Mode.Load → gauge.new ≡ gauge.old }

    // Such a mode takes nothing of the input, and never ends with a status that tells of it.
    ensures unread { (options : Options) (name : List ℕ) → command_of (map string_bytes words.now) ≡ Some (options, name)
        → options.mode ≢ Mode.Run → (input.new ≡ input.old) × IfOfInput result ⊥ }

    // Where nothing outside fails and there is memory, the answer is the verdict. Only that of a run asks for the bytes of the input.
    ensures complete { (options : Options) (name content all : List ℕ) → AreAbout (map string_bytes words.now) (F.contents files.old) options name content
        → options.mode ≡ Mode.Run → S.left input.old ≡ Some all
        → WentWell options.mode result
        (record { file = F.faults files.old name; input = S.faults input.old; output = K.faults output.old })
        (record { file = F.faults files.new name; input = S.faults input.new; output = K.faults output.new })
        → IsVerdict options content all result }
    ensures complete_shown { (options : Options) (name content : List ℕ) → AreAbout (map string_bytes words.now) (F.contents files.old) options name content
        → options.mode ≢ Mode.Run
        → WentWell options.mode result
        (record { file = F.faults files.old name; input = S.faults input.old; output = K.faults output.old })
        (record { file = F.faults files.new name; input = S.faults input.new; output = K.faults output.new })
        → IsShownVerdict options content result }

    // A fault of the pattern file, the input or the output is told only where one was counted there, and no count falls.
    ensures blamed { (options : Options) (name : List ℕ) → command_of (map string_bytes words.now) ≡ Some (options, name)
        → IsBlamed result
        (record { file = F.faults files.old name; input = S.faults input.old; output = K.faults output.old })
        (record { file = F.faults files.new name; input = S.faults input.new; output = K.faults output.new }) }
    ensures later { (other : List ℕ)
        → NoneFell
        (record { file = F.faults files.old other; input = S.faults input.old; output = K.faults output.old })
        (record { file = F.faults files.new other; input = S.faults input.new; output = K.faults output.new }) }

    // The notes take the line of the status, or a front of it where they fail.
    ensures noted { IsNoted result (N.taken notes.old) (N.taken notes.new) (N.faults notes.old) (N.faults notes.new) }
{
    match command(alloc, words) {
        Ok((options, name)) => {
            let status = under_file(alloc, options, name, files, input, output, gauge);
            tell(notes, &status);
            status
        }
        Err(WordsFault::Bad) => {
            tell(notes, &Status::BadWords);
            Status::BadWords
        }
        Err(WordsFault::NoMemory) => {
            tell(notes, &Status::NoMemory);
            Status::NoMemory
        }
    }
}

// Does what the options say with the named file.
fn under_file<F: Files, S: Source, K: Sink, G: Gauge>(
    alloc: Global,
    options: Options,
    name: &str,
    files: &mut F,
    input: &mut S,
    output: &mut K,
    gauge: &mut G,
) -> Status
    ensures words { result ≢ Status.BadWords }
    ensures pattern { (content : List ℕ) → F.contents files.old name.now ≡ Some content
        → IsPatternJudged (AreRefused options.mode content) result ((input.new ≡ input.old) × (output.new ≡ output.old) × (gauge.new ≡ gauge.old)) }
    ensures untouched { IfUnread result ((input.new ≡ input.old) × (output.new ≡ output.old) × (gauge.new ≡ gauge.old)) }
    ensures ran { (content all : List ℕ) (plan : Plan) → F.contents files.old name.now ≡ Some content
        → options.mode ≡ Mode.Run → ArePlannedAs content (Ok plan) → S.left input.old ≡ Some all
        → Ended (meaning_of options.header options.lag plan) options.rows result all (S.left input.new)
        (given (K.taken output.old) (G.seen gauge.old)) (given (K.taken output.new) (G.seen gauge.new)) }
    ensures showed { (content text : List ℕ) → F.contents files.old name.now ≡ Some content
        → AreShownIn options.mode options content (Ok text)
        → HasPrinted result (K.taken output.old) (K.taken output.new) text }
    ensures loaded { (content : List ℕ) (plan : Plan) → F.contents files.old name.now ≡ Some content
        → options.mode ≡ Mode.Load → ArePlannedAs content (Ok plan)
        → HasShown result (G.seen gauge.old) (G.seen gauge.new) (load_sizes options plan) }
    ensures unshown { options.mode ≢ Mode.Run → options.mode ≢ Mode.Load → gauge.new ≡ gauge.old }
    ensures unread { options.mode ≢ Mode.Run → (input.new ≡ input.old) × IfOfInput result ⊥ }
    ensures complete { (content all : List ℕ) → F.contents files.old name.now ≡ Some content
        → options.mode ≡ Mode.Run → S.left input.old ≡ Some all
        → WentWell options.mode result
        (record { file = F.faults files.old name.now; input = S.faults input.old; output = K.faults output.old })
        (record { file = F.faults files.new name.now; input = S.faults input.new; output = K.faults output.new })
        → IsVerdict options content all result }
    ensures complete_shown { (content : List ℕ) → F.contents files.old name.now ≡ Some content
        → options.mode ≢ Mode.Run
        → WentWell options.mode result
        (record { file = F.faults files.old name.now; input = S.faults input.old; output = K.faults output.old })
        (record { file = F.faults files.new name.now; input = S.faults input.new; output = K.faults output.new })
        → IsShownVerdict options content result }
    ensures blamed { IsBlamed result
        (record { file = F.faults files.old name.now; input = S.faults input.old; output = K.faults output.old })
        (record { file = F.faults files.new name.now; input = S.faults input.new; output = K.faults output.new }) }
    ensures later { (other : List ℕ)
        → NoneFell
        (record { file = F.faults files.old other; input = S.faults input.old; output = K.faults output.old })
        (record { file = F.faults files.new other; input = S.faults input.new; output = K.faults output.new }) }
{
    match options.mode {
        Mode::Run => run_file(alloc, options, name, files, input, output, gauge),
        Mode::Check => show_file(alloc, Form::File, name, files, output),
        Mode::Explain => show_file(alloc, Form::States, name, files, output),
        Mode::Load => load_file(alloc, options, name, files, output, gauge),
    }
}

// Loads the pattern and runs it over the input.
fn run_file<F: Files, S: Source, K: Sink, G: Gauge>(
    alloc: Global,
    options: Options,
    name: &str,
    files: &mut F,
    input: &mut S,
    output: &mut K,
    gauge: &mut G,
) -> Status
    ensures words { result ≢ Status.BadWords }
    ensures pattern { (content : List ℕ) → F.contents files.old name.now ≡ Some content
        → IsPatternJudged (AreRefused Mode.Run content) result ((input.new ≡ input.old) × (output.new ≡ output.old) × (gauge.new ≡ gauge.old)) }
    ensures untouched { IfUnread result ((input.new ≡ input.old) × (output.new ≡ output.old) × (gauge.new ≡ gauge.old)) }
    ensures ran { (content all : List ℕ) (plan : Plan) → F.contents files.old name.now ≡ Some content
        → ArePlannedAs content (Ok plan) → S.left input.old ≡ Some all
        → Ended (meaning_of options.header options.lag plan) options.rows result all (S.left input.new)
        (given (K.taken output.old) (G.seen gauge.old)) (given (K.taken output.new) (G.seen gauge.new)) }
    ensures complete { (content all : List ℕ) → F.contents files.old name.now ≡ Some content
        → S.left input.old ≡ Some all
        → WentWell Mode.Run result
        (record { file = F.faults files.old name.now; input = S.faults input.old; output = K.faults output.old })
        (record { file = F.faults files.new name.now; input = S.faults input.new; output = K.faults output.new })
        → IsVerdict options content all result }
    ensures blamed { IsBlamed result
        (record { file = F.faults files.old name.now; input = S.faults input.old; output = K.faults output.old })
        (record { file = F.faults files.new name.now; input = S.faults input.new; output = K.faults output.new }) }
    ensures later { (other : List ℕ)
        → NoneFell
        (record { file = F.faults files.old other; input = S.faults input.old; output = K.faults output.old })
        (record { file = F.faults files.new other; input = S.faults input.new; output = K.faults output.new }) }
{
    unique_answers();
    match load_plan(alloc, files, name) {
        Ok(plan) => run_plan(alloc, options, plan, input, output, gauge),
        Err(stop) => stop.status(),
    }
}

// Runs a plan over the input.
fn run_plan<S: Source, K: Sink, G: Gauge>(
    alloc: Global,
    options: Options,
    plan: Plan,
    input: &mut S,
    output: &mut K,
    gauge: &mut G,
) -> Status
    requires { IsUsable plan }
    ensures begun { IfBegun result }
    ensures read { result ≡ Status.ReadFault → Rose (S.faults input.old) (S.faults input.new) }
    ensures write { result ≡ Status.WriteFault → Rose (K.faults output.old) (K.faults output.new) }
    ensures ran { (all : List ℕ) → S.left input.old ≡ Some all
        → Ended (meaning_of options.header options.lag plan) options.rows result all (S.left input.new)
        (given (K.taken output.old) (G.seen gauge.old)) (given (K.taken output.new) (G.seen gauge.new)) }
    ensures complete { (all : List ℕ) → S.left input.old ≡ Some all
        → DidNotRise (S.faults input.old) (S.faults input.new) → DidNotRise (K.faults output.old) (K.faults output.new)
        → result ≢ Status.NoMemory
        → result ≡ verdict (meaning_of options.header options.lag plan) options.rows (raw_lines all) }
    ensures later_input { S.faults input.old ≤ S.faults input.new }
    ensures later_output { K.faults output.old ≤ K.faults output.new }
{
    match EngineRun::new(alloc, options.header, options.lag, plan) {
        Ok(handler) => run(alloc, handler, options.rows, input, output, gauge).status(),
        Err(_) => Status::NoMemory,
    }
}

// Loads the pattern and prints it in a form.
fn show_file<F: Files, K: Sink>(
    alloc: Global,
    form: Form,
    name: &str,
    files: &mut F,
    output: &mut K,
) -> Status
    ensures words { result ≢ Status.BadWords }
    ensures shown { IfOfInput result ⊥ }
    ensures pattern { (content : List ℕ) → F.contents files.old name.now ≡ Some content
        → IsPatternJudged (λ fault. AreShownAs form content (Err fault)) result (output.new ≡ output.old) }
    ensures untouched { IfUnread result (output.new ≡ output.old) }
    ensures pattern_fault { result ≡ Status.PatternFault → Rose (F.faults files.old name.now) (F.faults files.new name.now) }
    ensures write { result ≡ Status.WriteFault → Rose (K.faults output.old) (K.faults output.new) }
    ensures showed { (content text : List ℕ) → F.contents files.old name.now ≡ Some content → AreShownAs form content (Ok text)
        → HasPrinted result (K.taken output.old) (K.taken output.new) text }
    ensures complete { (content : List ℕ) → F.contents files.old name.now ≡ Some content
        → DidNotRise (F.faults files.old name.now) (F.faults files.new name.now) → DidNotRise (K.faults output.old) (K.faults output.new)
        → result ≢ Status.NoMemory
        → (answer : Result (List ℕ) Fault) × AreShownAs form content answer × (result ≡ show_verdict answer) }
    ensures later_files { (other : List ℕ) → F.faults files.old other ≤ F.faults files.new other }
    ensures later_output { K.faults output.old ≤ K.faults output.new }
{
    unique_answers();
    match load_text(alloc, form, files, name) {
        Ok(text) => write_text(output, text.as_str().as_bytes()),
        Err(stop) => stop.status(),
    }
}

// Loads the pattern, runs it over generated lines and prints the summary.
fn load_file<F: Files, K: Sink, G: Gauge>(
    alloc: Global,
    options: Options,
    name: &str,
    files: &mut F,
    output: &mut K,
    gauge: &mut G,
) -> Status
    ensures words { result ≢ Status.BadWords }
    ensures shown { IfOfInput result ⊥ }
    ensures pattern { (content : List ℕ) → F.contents files.old name.now ≡ Some content
        → IsPatternJudged (AreRefused Mode.Load content) result ((output.new ≡ output.old) × (gauge.new ≡ gauge.old)) }
    ensures untouched { IfUnread result ((output.new ≡ output.old) × (gauge.new ≡ gauge.old)) }
    ensures pattern_fault { result ≡ Status.PatternFault → Rose (F.faults files.old name.now) (F.faults files.new name.now) }
    ensures write { result ≡ Status.WriteFault → Rose (K.faults output.old) (K.faults output.new) }
    ensures showed { (content : List ℕ) (plan : Plan) → F.contents files.old name.now ≡ Some content → ArePlannedAs content (Ok plan)
        → HasPrinted result (K.taken output.old) (K.taken output.new) (load_summary options plan) }
    ensures loaded { (content : List ℕ) (plan : Plan) → F.contents files.old name.now ≡ Some content → ArePlannedAs content (Ok plan)
        → HasShown result (G.seen gauge.old) (G.seen gauge.new) (load_sizes options plan) }
    ensures complete { (content : List ℕ) → F.contents files.old name.now ≡ Some content
        → DidNotRise (F.faults files.old name.now) (F.faults files.new name.now) → DidNotRise (K.faults output.old) (K.faults output.new)
        → result ≢ Status.NoMemory
        → (answer : Result (List ℕ) Fault) × AreSummedAs options content answer × (result ≡ show_verdict answer) }
    ensures later_files { (other : List ℕ) → F.faults files.old other ≤ F.faults files.new other }
    ensures later_output { K.faults output.old ≤ K.faults output.new }
{
    unique_answers();
    match load_plan(alloc, files, name) {
        Ok(plan) => load_run(alloc, options, plan, output, gauge),
        Err(stop) => stop.status(),
    }
}

// Runs a plan over generated lines and prints the summary.
fn load_run<K: Sink, G: Gauge>(
    alloc: Global,
    options: Options,
    plan: Plan,
    output: &mut K,
    gauge: &mut G,
) -> Status
    requires { IsUsable plan }
    ensures status { (result ≡ Status.Done) ⊎ ((result ≡ Status.WriteFault) ⊎ (result ≡ Status.NoMemory)) }
    ensures write { result ≡ Status.WriteFault → Rose (K.faults output.old) (K.faults output.new) }
    ensures showed { HasPrinted result (K.taken output.old) (K.taken output.new) (load_summary options plan) }
    ensures loaded { HasShown result (G.seen gauge.old) (G.seen gauge.new) (load_sizes options plan) }
    ensures later { K.faults output.old ≤ K.faults output.new }
{
    match load_summary(alloc, options, plan, gauge) {
        Ok(text) => write_text(output, text.as_str().as_bytes()),
        Err(_) => Status::NoMemory,
    }
}

fn write_text<K: Sink>(output: &mut K, text: &[u8]) -> Status
    ensures status { (result ≡ Status.Done) ⊎ (result ≡ Status.WriteFault) }
    ensures printed { HasPrinted result (K.taken output.old) (K.taken output.new) text.now }
    ensures write { result ≡ Status.WriteFault → Rose (K.faults output.old) (K.faults output.new) }
    ensures later { K.faults output.old ≤ K.faults output.new }
{
    match write_all(output, text) {
        Ok(()) => Status::Done,
        Err(_) => Status::WriteFault,
    }
}
