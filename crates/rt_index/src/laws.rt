// Laws of the definitions, each the contract of a function that does nothing.
ghost use Rattle.std.specs.Prelude.{◌≡◌, ◌↔◌, ℕ, List, Some, Ok, length, ◌≤◌};
ghost use Rattle.rt_stamps.specs.Places.{position_at, text_of_position};
ghost use Rattle.rt_index.specs.declared.parts.Fixed.{Fixed};
ghost use Rattle.rt_index.specs.declared.parts.Modifier.{Modifier};
ghost use Rattle.rt_index.specs.Grammar.{IsFixed, AreModifiers};
ghost use Rattle.rt_index.specs.Reading.{fixed_of, modifiers_of};
ghost use Rattle.rt_index.specs.Index.{index_of};
ghost use Rattle.rt_index.specs.Widget.{IndexedWidget, IsProper};

/// What is read from the left is what the grammar spells.
pub fn grammar()
    ensures modifiers { (text : List ℕ) (modifiers : List Modifier) → AreModifiers text modifiers ↔ (modifiers_of text ≡ Some modifiers) }
    ensures fixed { (text : List ℕ) (fixed : Fixed) → IsFixed text fixed ↔ (fixed_of text ≡ Some fixed) }
{}

/// The `LINE.CHARACTER` that is written for a place names that place.
pub fn printed_place()
    ensures { (w : IndexedWidget) (place : ℕ) → IsProper w → place ≤ length w.text
        → index_of w (text_of_position (position_at w.text place)) ≡ Ok place }
{}
