//! Three events of one type in direct succession.
ghost use Rattle.std.specs.Prelude.{◌≡◌, [], ◌∷◌};
ghost use Rattle.sharing_rows.specs.Sizes.{sizes_behind};
ghost use Rattle.sharing_rows.specs.Triple.{three_in_a_row, five_ticks};

/// After the second event what is held stays the same: one list of one event, and one of two.
pub fn sizes_of_three_in_a_row()
    ensures { sizes_behind three_in_a_row five_ticks 5 ≡ (1, 1, 1) ∷ (2, 3, 3) ∷ (2, 3, 3) ∷ (2, 3, 3) ∷ (2, 3, 3) ∷ [] }
{}
