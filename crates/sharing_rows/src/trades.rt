//! Trades of one symbol that rise above a first one and then fall below it, within a minute, with skip `past_last`.
ghost use Rattle.std.specs.Prelude.{◌≡◌, [], ◌∷◌};
ghost use Rattle.cep_plan_rows.specs.Trades.{rise_and_fall, ticks};
ghost use Rattle.sharing_rows.specs.Sizes.{sizes_behind, label_after};

/// How much is held after each of the five trades. The match of the last one lets all go.
pub fn sizes_of_trades()
    ensures { sizes_behind rise_and_fall ticks 5 ≡ (1, 1, 1) ∷ (1, 1, 1) ∷ (2, 3, 3) ∷ (3, 5, 6) ∷ (0, 0, 0) ∷ [] }
{}

/// Two lists end at the fourth trade in one state: the first trade with both rises, and the third trade with the last rise alone.
pub fn labels_of_trades()
    ensures longer { label_after rise_and_fall ticks 4 ((0, 0) ∷ (1, 2) ∷ (1, 3) ∷ []) ≡ 0 ∷ 0 ∷ 0 ∷ [] }
    ensures later { label_after rise_and_fall ticks 4 ((0, 2) ∷ (1, 3) ∷ []) ≡ 0 ∷ 1 ∷ 0 ∷ [] }
{}
