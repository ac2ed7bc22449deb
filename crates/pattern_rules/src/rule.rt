//! The rules in their order.

ghost use Rattle.std.specs.Prelude.{◌≡◌, IfOk};
ghost use Rattle.pattern_rules.specs.First.{first_some};
ghost use Rattle.pattern_rules.specs.Rules as spec;

use crate::code::{
    BAD_TIMES, BAD_WITHIN, ENDS_WITH_NOT, FIELD_KINDS, KIND_CLASH, LATER_NAME, MODE_WITHOUT_LOOP,
    NEGATED_NAME, NOT_AFTER_OPTIONAL, QUANTIFIER_ON_NOT, SKIP_NAME, TOO_MANY_STAGES,
    TOO_MANY_STATES, TWICE_QUANTIFIER, TWICE_STAGE, TWICE_TYPE, TWO_MODES, UNKNOWN_FIELD,
    UNKNOWN_NAME, UNKNOWN_TYPE, UNTIL_WITHOUT_OPEN_LOOP,
};
use crate::declarations::{field_kinds, twice_type};
use crate::fields::KnownFields;
use crate::indexed::IndexedFile;
use crate::kind::kind_clash;
use crate::mention::{MentionRule, broken_by_mention};
use crate::stage::{StageRule, broken_in_stages};
use crate::stages::{
    ends_with_not, not_after_optional, too_many_stages, too_many_states, twice_stage,
};
use crate::whole::{bad_within, has_limit, skip_name};
use cep_event::NoMemory;
use cep_syntax::File;
use std::alloc::Global;

/// A rule of files.
#[derive(Clone, Copy, Debug, PartialEq, Eq)]
pub enum Rule {
    TwiceType,
    FieldKinds,
    Stage(StageRule),
    TwiceStage,
    EndsWithNot,
    NotAfterOptional,
    Mention(MentionRule),
    KindClash,
    BadWithin,
    SkipName,
    TooManyStages,
    TooManyStates,
}

/// The code of a broken rule, and the first place where it is broken.
#[derive(Clone, Copy, Debug, PartialEq, Eq)]
pub struct Fault {
    pub place: u32,
    pub code: u8,
}

fn broken_by(
    alloc: Global,
    file: &IndexedFile,
    fields: &KnownFields,
    rule: Rule,
) -> Result<Option<u32>, NoMemory>
    ensures { IfOk result (λ place. place ≡ spec.broken_by file.now fields.now rule) }
{
    match rule {
        Rule::TwiceType => Ok(twice_type(file)),
        Rule::FieldKinds => field_kinds(alloc, fields, file.types()),
        Rule::Stage(asked) => Ok(broken_in_stages(asked, file)),
        Rule::TwiceStage => Ok(twice_stage(file)),
        Rule::EndsWithNot => Ok(ends_with_not(has_limit(file.file()), file.openers())),
        Rule::NotAfterOptional => Ok(not_after_optional(file.openers())),
        Rule::Mention(asked) => Ok(broken_by_mention(asked, file, fields)),
        Rule::KindClash => Ok(kind_clash(fields, file.file())),
        Rule::BadWithin => Ok(bad_within(file.file())),
        Rule::SkipName => Ok(skip_name(file.openers(), &file.file().skip)),
        Rule::TooManyStages => Ok(too_many_stages(file.openers())),
        Rule::TooManyStates => Ok(too_many_states(file.openers())),
    }
}

fn fault_at(code: u8, place: Option<u32>) -> Option<Fault>
    ensures { result ≡ spec.fault_at code place }
{
    match place {
        None => None,
        Some(place) => Some(Fault { place, code }),
    }
}

fn fault_by(
    alloc: Global,
    file: &IndexedFile,
    fields: &KnownFields,
    code: u8,
    rule: Rule,
) -> Result<Option<Fault>, NoMemory>
    ensures { IfOk result (λ fault. fault ≡ spec.fault_by file.now fields.now (code, rule)) }
{
    let place = broken_by(alloc, file, fields, rule)?;
    Ok(fault_at(code, place))
}

fn first_fault(
    alloc: Global,
    file: &IndexedFile,
    fields: &KnownFields,
    rules: &[(u8, Rule)],
) -> Result<Option<Fault>, NoMemory>
    ensures { IfOk result (λ fault. fault ≡ first_some (spec.fault_by file.now fields.now) rules.now) }
{
    for (code, rule) in rules {
        if let Some(fault) = fault_by(alloc, file, fields, *code, *rule)? {
            return Ok(Some(fault));
        }
    }
    Ok(None)
}

/// The lowest code whose rule the file breaks, with the first place where it does. The fields are those that the file knows. Want of memory may come at any file, since its names are indexed first.
#[tactic(auto, unfolding(crate::specs::Rules::fault_with))]
pub fn fault_in(alloc: Global, file: &File, fields: &KnownFields) -> Result<Option<Fault>, NoMemory>
    ensures { IfOk result (λ fault. fault ≡ spec.fault_with fields.now file.now) }
{
    let file = IndexedFile::new(alloc, file)?;
    let rules = [
        (TWICE_TYPE, Rule::TwiceType),
        (FIELD_KINDS, Rule::FieldKinds),
        (UNKNOWN_TYPE, Rule::Stage(StageRule::UnknownType)),
        (TWICE_STAGE, Rule::TwiceStage),
        (ENDS_WITH_NOT, Rule::EndsWithNot),
        (NOT_AFTER_OPTIONAL, Rule::NotAfterOptional),
        (QUANTIFIER_ON_NOT, Rule::Stage(StageRule::QuantifierOnNot)),
        (TWICE_QUANTIFIER, Rule::Stage(StageRule::TwiceQuantifier)),
        (BAD_TIMES, Rule::Stage(StageRule::BadTimes)),
        (MODE_WITHOUT_LOOP, Rule::Stage(StageRule::ModeWithoutLoop)),
        (TWO_MODES, Rule::Stage(StageRule::TwoModes)),
        (
            UNTIL_WITHOUT_OPEN_LOOP,
            Rule::Stage(StageRule::UntilWithoutOpenLoop),
        ),
        (UNKNOWN_FIELD, Rule::Mention(MentionRule::UnknownField)),
        (KIND_CLASH, Rule::KindClash),
        (UNKNOWN_NAME, Rule::Mention(MentionRule::UnknownName)),
        (LATER_NAME, Rule::Mention(MentionRule::LaterName)),
        (NEGATED_NAME, Rule::Mention(MentionRule::NegatedName)),
        (BAD_WITHIN, Rule::BadWithin),
        (SKIP_NAME, Rule::SkipName),
        (TOO_MANY_STAGES, Rule::TooManyStages),
        (TOO_MANY_STATES, Rule::TooManyStates),
    ];
    first_fault(alloc, &file, fields, &rules)
}
