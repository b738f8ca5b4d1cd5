// Worked examples of the definitions, each a clause that computes (Tk text manual, "tag nextrange").
ghost use Rattle.std.specs.Prelude.{◌≡◌, Bool, [], ◌∷◌, true, false, None, Some};
ghost use Rattle.rt_tagcmd.specs.Examples.{range, two_ranges};
ghost use Rattle.rt_tagcmd.specs.TagRanges.{first_range_from, next_range, passing_ranges, previous_range};

/// Of four characters all but the third have a tag. The next range begins at the first place or behind it,
/// and before the second; the previous one begins before the first place, and at the second or behind it.
pub fn ranges()
    ensures two { passing_ranges (λ has. has) (true ∷ true ∷ false ∷ true ∷ []) ≡ two_ranges }
    ensures none { passing_ranges (λ has. has) (false ∷ false ∷ []) ≡ [] }
    ensures next { next_range 1 4 two_ranges ≡ Some (range 3 4) }
    ensures next_here { next_range 0 4 two_ranges ≡ Some (range 0 2) }
    ensures no_next { next_range 1 3 two_ranges ≡ None }
    ensures first { first_range_from 1 two_ranges ≡ Some (range 3 4) }
    ensures no_first { first_range_from 4 two_ranges ≡ None }
    ensures previous { previous_range 4 0 two_ranges ≡ Some (range 3 4) }
    ensures previous_over { previous_range 3 0 two_ranges ≡ Some (range 0 2) }
    ensures no_previous { previous_range 3 1 two_ranges ≡ None }
{}
