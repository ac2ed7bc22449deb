//! Where a printed match stands in the output, told by the match alone. The definitions stand in `specs/`, and the laws in `proofs/`. No function here does anything when it runs.
#![tactic(auto)]

ghost use Rattle.judged_laws.specs.Found.{GivesJust, FoundAfter, GivenOnce, GivenByEnd};

/// Where times don't fall, a tick gives a match just where it is the tick of the last event of a full one, or the first that reaches the limit of another.
pub fn matches_are_given_just_there()
    ensures { GivesJust }
{}

/// Where times don't fall, the tick of a match is found without a look at other lists.
pub fn ticks_are_found()
    ensures { FoundAfter }
{}

/// Where times don't fall, no two ticks give a match.
pub fn no_two_ticks_give_a_match()
    ensures { GivenOnce }
{}

/// Where the limit between neighbours isn't 0, some tick gives each match: the end does where no other has.
pub fn the_end_gives_what_is_left()
    ensures { GivenByEnd }
{}
