ghost use Rattle.std.specs.Prelude.{◌≡◌, List, ℕ, Result};
ghost use Rattle.cep_plan.specs.declared.plan.Plan.{Plan};
ghost use Rattle.pattern_rules.specs.declared.rule.Fault.{Fault};
ghost use Rattle.pattern_file.specs.Checked.{ArePlannedAs, ArePrintedAs};

/// The bytes of a pattern file come to one plan or one refusal, and to one text or one refusal.
pub fn unique_answers()
    ensures planned { (bytes : List ℕ) (one other : Result Plan Fault) → ArePlannedAs bytes one → ArePlannedAs bytes other → one ≡ other }
    ensures printed { (bytes : List ℕ) (one other : Result (List ℕ) Fault) → ArePrintedAs bytes one → ArePrintedAs bytes other → one ≡ other }
{}
