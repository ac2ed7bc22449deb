ghost use Rattle.std.specs.Prelude.{◌≡◌, List, ℕ, [], ◌∷◌, ◌++◌};
ghost use Rattle.cep_rows.specs.Feed.{HasNoFeed, AreLines};
ghost use Rattle.cep_rows.specs.Lines.{raw_lines, whole_lines, after_whole_lines, joined};

/// The lines of some bytes, from the front: each line that a line feed ends, and what stands behind the last one.
/// With what `Lines` answers, its lines are these, whatever pieces the bytes came in.
pub fn lines_from_the_front()
    ensures none { raw_lines [] ≡ [] }
    ensures line { (line bytes : List ℕ) → HasNoFeed line → raw_lines (line ++ 10 ∷ bytes) ≡ line ∷ raw_lines bytes }
    ensures rest { (b : ℕ) (bytes : List ℕ) → HasNoFeed (b ∷ bytes) → raw_lines (b ∷ bytes) ≡ (b ∷ bytes) ∷ [] }
    ensures whole { (lines : List (List ℕ)) (rest : List ℕ) → AreLines lines → HasNoFeed rest → whole_lines (joined lines ++ rest) ≡ lines }
    ensures after { (lines : List (List ℕ)) (rest : List ℕ) → AreLines lines → HasNoFeed rest → after_whole_lines (joined lines ++ rest) ≡ rest }
{}
