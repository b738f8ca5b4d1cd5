// Laws of the definitions, each the contract of a function that does nothing.
ghost use Rattle.std.specs.Prelude.{◌≡◌, ◌≤◌, ℕ, List, Some, None, slice_get};
ghost use Rattle.rt_search.specs.declared.search.Direction.{Direction};
ghost use Rattle.rt_search.specs.declared.search.Search.{Search};
ghost use Rattle.rt_lines.specs.declared.stretch.Stretch.{Stretch};
ghost use Rattle.rt_search.specs.Searches.{IsMatchIn, matches_in};

/// The first match of a stretch is the least place in it where a search finds the pattern, or the greatest when
/// backwards. If it has no first, there is no such place.
pub fn nearest_matches()
    ensures least { (search : Search) (pattern text : List ℕ) (stretch : Stretch) (found : ℕ) → search.direction ≡ Direction.Forwards
        → slice_get (matches_in search pattern text stretch) 0 ≡ Some found
        → IsMatchIn search pattern text stretch found × ((other : ℕ) → IsMatchIn search pattern text stretch other → found ≤ other) }
    ensures greatest { (search : Search) (pattern text : List ℕ) (stretch : Stretch) (found : ℕ) → search.direction ≡ Direction.Backwards
        → slice_get (matches_in search pattern text stretch) 0 ≡ Some found
        → IsMatchIn search pattern text stretch found × ((other : ℕ) → IsMatchIn search pattern text stretch other → other ≤ found) }
    ensures none { (search : Search) (pattern text : List ℕ) (stretch : Stretch) (place : ℕ)
        → slice_get (matches_in search pattern text stretch) 0 ≡ None → IsMatchIn search pattern text stretch place → ⊥ }
{}
