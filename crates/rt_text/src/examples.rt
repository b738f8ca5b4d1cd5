// Worked examples of the definitions, each a clause that computes.
ghost use Rattle.std.specs.Prelude.{◌≡◌, ◌∷◌, [], ◌-ℤ◌, Err, Ok, codes, pos};
ghost use Rattle.rt_stamps.specs.declared.fault.Fault.TheVariants.{BadIndex};
ghost use Rattle.rt_index.specs.declared.measure.Measure.TheVariants.{Chars, Lines};
ghost use Rattle.rt_index.specs.Index.{index_of};
ghost use Rattle.rt_text.specs.Commands.{insertion_place};
ghost use Rattle.rt_text.specs.Distances.{distance_of};
ghost use Rattle.rt_text.specs.Examples.{two_lines};
ghost use Rattle.rt_text.specs.PlaceWords.{place_word};
ghost use Rattle.rt_text.specs.Ranges.{ranges_of, text_between, texts_of};

/// Of the lines `abc` and `de`: a character past a line's end is its newline, `end` is behind the last newline, and modifiers
/// go one after another. An insertion at the end stands before the last newline.
pub fn indices()
    ensures first { index_of two_lines (codes "1.0") ≡ Ok 0 }
    ensures past { index_of two_lines (codes "1.9") ≡ Ok 3 }
    ensures end { index_of two_lines (codes "end") ≡ Ok 7 }
    ensures line_end { index_of two_lines (codes "1.end -1c") ≡ Ok 2 }
    ensures back { index_of two_lines (codes "end - 1 lines") ≡ Ok 4 }
    ensures none { index_of two_lines (codes "1.x") ≡ Err BadIndex }
    ensures inserted { insertion_place two_lines (codes "1.1") ≡ 1 }
    ensures inserted_last { insertion_place two_lines (codes "end") ≡ 6 }
{}

/// Indices name ranges in pairs, and a last one by itself a character. A range that ends where it begins, or before, is empty;
/// texts that are empty are left out.
pub fn ranges()
    ensures pairs { ranges_of (1 ∷ 3 ∷ 5 ∷ []) ≡ record { from = 1; to = 3 } ∷ record { from = 5; to = 6 } ∷ [] }
    ensures between { text_between (codes "abcd") 1 3 ≡ codes "bc" }
    ensures backwards { text_between (codes "abcd") 3 1 ≡ [] }
    ensures texts { texts_of (codes "abcd") (ranges_of (0 ∷ 2 ∷ 2 ∷ 2 ∷ 3 ∷ [])) ≡ codes "ab" ∷ codes "d" ∷ [] }
{}

/// Distances are negative where the first place is the later one. Lines are those of the places.
pub fn distances()
    ensures forward { distance_of two_lines.text 1 4 Chars ≡ pos 3 }
    ensures backward { distance_of two_lines.text 4 1 Chars ≡ pos 0 -ℤ pos 3 }
    ensures lines { distance_of two_lines.text 0 5 Lines ≡ pos 1 }
    ensures one_line { distance_of two_lines.text 4 5 Lines ≡ pos 0 }
{}

/// Places as indices are written.
pub fn places()
    ensures first { place_word 0 ≡ codes "1.0+0c" }
    ensures twelve { place_word 12 ≡ codes "1.0+12c" }
{}
