// Worked examples of the definitions, each a clause that computes (Tk text manual, "The marks").
ghost use Rattle.std.specs.Prelude.{◌≡◌, ℕ, List, [], ◌∷◌, codes, None, Some};
ghost use Rattle.rt_marks.specs.declared.gravity.Gravity.TheVariants.{Left, Right};
ghost use Rattle.rt_marks.specs.Examples.{left_mark, right_mark};
ghost use Rattle.rt_marks.specs.Marks.{gravity_of, in_order, mark_after, mark_before, marks_inserted, marks_removed, marks_set, marks_with_gravity};

/// Two characters are put in at place 3. A mark there stays before them if its gravity is left, and stands
/// behind them if it is right. A mark before the place stays, and one behind it moves on, whatever its gravity.
pub fn insertions()
    ensures left_stays { marks_inserted 3 2 (left_mark 3 (codes "m") ∷ []) ≡ left_mark 3 (codes "m") ∷ [] }
    ensures right_moves { marks_inserted 3 2 (right_mark 3 (codes "m") ∷ []) ≡ right_mark 5 (codes "m") ∷ [] }
    ensures before { marks_inserted 3 2 (right_mark 2 (codes "m") ∷ []) ≡ right_mark 2 (codes "m") ∷ [] }
    ensures behind { marks_inserted 3 2 (left_mark 4 (codes "m") ∷ []) ≡ left_mark 6 (codes "m") ∷ [] }
    ensures both { marks_inserted 3 2 (left_mark 3 (codes "z") ∷ right_mark 3 (codes "a") ∷ [])
        ≡ left_mark 3 (codes "z") ∷ right_mark 5 (codes "a") ∷ [] }
{}

/// Two characters from place 1 on are removed: the gaps of the places 1, 2 and 3 become that of place 1.
pub fn removals()
    ensures within { marks_removed 1 2 (right_mark 2 (codes "a") ∷ left_mark 3 (codes "z") ∷ [])
        ≡ left_mark 1 (codes "z") ∷ right_mark 1 (codes "a") ∷ [] }
    ensures before { marks_removed 1 2 (right_mark 0 (codes "m") ∷ []) ≡ right_mark 0 (codes "m") ∷ [] }
    ensures behind { marks_removed 1 2 (left_mark 4 (codes "m") ∷ []) ≡ left_mark 2 (codes "m") ∷ [] }
{}

/// At one place those of left gravity come first, and then the names count by their bytes: capitals before
/// small letters, and a name before a longer one that begins with it.
pub fn orders()
    ensures places { in_order (left_mark 4 (codes "a") ∷ right_mark 3 (codes "b") ∷ []) ≡ right_mark 3 (codes "b") ∷ left_mark 4 (codes "a") ∷ [] }
    ensures gravities { in_order (right_mark 3 (codes "a") ∷ left_mark 3 (codes "b") ∷ []) ≡ left_mark 3 (codes "b") ∷ right_mark 3 (codes "a") ∷ [] }
    ensures names { in_order (left_mark 3 (codes "ab") ∷ left_mark 3 (codes "a") ∷ left_mark 3 (codes "Z") ∷ [])
        ≡ left_mark 3 (codes "Z") ∷ left_mark 3 (codes "a") ∷ left_mark 3 (codes "ab") ∷ [] }
    ensures next { mark_after (codes "b") (left_mark 3 (codes "b") ∷ right_mark 3 (codes "a") ∷ []) ≡ Some (right_mark 3 (codes "a")) }
    ensures previous { mark_before (codes "a") (left_mark 3 (codes "b") ∷ right_mark 3 (codes "a") ∷ []) ≡ Some (left_mark 3 (codes "b")) }
    ensures first { mark_before (codes "b") (left_mark 3 (codes "b") ∷ right_mark 3 (codes "a") ∷ []) ≡ None }
{}

/// A new mark has right gravity, and one that is set again keeps its own.
pub fn settings()
    ensures new { marks_set (codes "m") 3 [] ≡ right_mark 3 (codes "m") ∷ [] }
    ensures again { marks_set (codes "m") 5 (left_mark 3 (codes "m") ∷ right_mark 4 (codes "n") ∷ [])
        ≡ right_mark 4 (codes "n") ∷ left_mark 5 (codes "m") ∷ [] }
    ensures gravity { marks_with_gravity (codes "m") Left (right_mark 3 (codes "a") ∷ right_mark 3 (codes "m") ∷ [])
        ≡ left_mark 3 (codes "m") ∷ right_mark 3 (codes "a") ∷ [] }
    ensures left { gravity_of (codes "left") ≡ Some Left }
    ensures right { gravity_of (codes "right") ≡ Some Right }
    ensures other { gravity_of (codes "l") ≡ None }
{}
