// Laws of the definitions, each the contract of a function that does nothing.
ghost use Rattle.std.specs.Prelude.{◌≡◌, ◌≤◌, ◌<◌, ◌+◌, ◌++◌, ◌∷◌, ◌⊎◌, [], ℕ, Bool, true, false, List, Some, None, is_some, length, take, drop, map, option_map, slice_get};
ghost use Rattle.rt_stamps.specs.declared.stamp.Span.{Span};
ghost use Rattle.rt_stamps.specs.declared.stamp.Stamp.{Stamp};
ghost use Rattle.rt_stamps.specs.declared.stamp.TheConstants.{FINAL, ROOT};
ghost use Rattle.rt_stamps.specs.Stamps.{is_before, is_same};
ghost use Rattle.rt_store.specs.declared.cell.Cell.{Cell};
ghost use Rattle.rt_store.specs.Cells.{AreDistinct, EndsFinal, GoOnTo, GoesOn, IsPlaced, cell_of, gone_in, position_of, put_at, skip_from, stamps_of, state_in, text_of, visible_before, visible_of};
ghost use Rattle.rt_store.specs.Shown.{shown};
ghost use Rattle.rt_store.specs.Spans.{gone_in_any, is_among};
ghost use Rattle.rt_store.specs.Tagged.{AreStates, IsGreatestBelow, IsLeastFrom, Passes, next_place, previous_place};
ghost use Rattle.rt_tags.specs.States.{IsState, KeepsIds, TagStates};

/// The next place is the least from a place up whose character passes a test, and the previous one
/// the greatest below it.
pub fn nearest_places<A>()
    ensures next { (test : A → Bool) (characters : List A) (place found : ℕ) → next_place test characters place ≡ Some found
        → IsLeastFrom test characters place found }
    ensures no_next { (test : A → Bool) (characters : List A) (place k : ℕ) → next_place test characters place ≡ None
        → place ≤ k → Passes test characters k → ⊥ }
    ensures previous { (test : A → Bool) (characters : List A) (place found : ℕ) → previous_place test characters place ≡ Some found
        → IsGreatestBelow test characters place found }
    ensures no_previous { (test : A → Bool) (characters : List A) (place k : ℕ) → previous_place test characters place ≡ None
        → k < place → Passes test characters k → ⊥ }
{}

/// The states of cells stay those that a table gave out, whatever a store's calls change, and while
/// the table keeps its ids.
pub fn given_states()
    ensures spliced { (table : TagStates) (at : ℕ) (old new : List (Cell ℕ)) → AreStates table old → AreStates table new
        → AreStates table (take at old ++ new ++ drop at old) }
    ensures gone { (table : TagStates) (span : Span) (cells : List (Cell ℕ)) → AreStates table cells → AreStates table (map (gone_in span) cells) }
    ensures all_gone { (table : TagStates) (spans : List Span) (cells : List (Cell ℕ)) → AreStates table cells
        → AreStates table (map (gone_in_any spans) cells) }
    ensures put { (table : TagStates) (span : Span) (state : ℕ) (cells : List (Cell ℕ)) → IsState table state
        → AreStates table cells → AreStates table (map (state_in span state) cells) }
    ensures kept { (old new : TagStates) (cells : List (Cell ℕ)) → KeepsIds old new → AreStates old cells → AreStates new cells }
{}

/// A stamp is found where a cell has it, and the place that is found is that of its cell, if this is
/// visible.
pub fn found_cells<T>()
    ensures held { (cells : List (Cell T)) (stamp : Stamp) → is_some (cell_of cells stamp) ≡ is_among (stamps_of cells) stamp }
    ensures position { (cells : List (Cell T)) (stamp : Stamp) (position : ℕ) → position_of cells stamp ≡ Some position
        → slice_get cells position ≡ cell_of cells stamp }
    ensures place { (cells : List (Cell T)) (stamp : Stamp) (cell : Cell T) (place : ℕ) → cell_of cells stamp ≡ Some cell
        → cell.gone ≡ false → option_map (visible_before cells) (position_of cells stamp) ≡ Some place → slice_get (visible_of cells) place
        ≡ Some cell }
{}

/// The stamps of a run are those of cells; where stamps differ, each finds its cell of the run.
pub fn runs<T>()
    ensures held { (cells : List (Cell T)) (first : Cell T) (last n : ℕ) → GoOnTo cells first last → first.stamp.count + n ≤ last
        → is_among (stamps_of cells) (record { count = first.stamp.count + n; site = first.stamp.site }) ≡ true }
    ensures found { (cells : List (Cell T)) (first : Cell T) (last n : ℕ) → AreDistinct cells → GoOnTo cells first last
        → first.stamp.count + n ≤ last → (cell : Cell T)
        × (cell_of cells (record { count = first.stamp.count + n; site = first.stamp.site }) ≡ Some cell) × GoesOn first n cell }
{}

/// New cells have a place behind each element that is the root or a cell before the last one, and it
/// is before the final newline.
pub fn places_of_new_cells<T>()
    ensures placed { (cells : List (Cell T)) (left new : Stamp) → EndsFinal cells
        → (is_among (stamps_of cells) left ≡ true) ⊎ (left ≡ ROOT) → is_same left FINAL ≡ false → is_before FINAL new ≡ true
        → IsPlaced cells left new }
    ensures more { (cells new : List (Cell T)) (position : ℕ) → length (put_at position new cells) ≡ length cells + length new }
{}

/// Cells made gone span by span are those of all the spans.
pub fn gone_cells<T>()
    ensures more { (span : Span) (spans : List Span) (cells : List (Cell T))
        → map (gone_in_any spans) (map (gone_in span) cells) ≡ map (gone_in_any (span ∷ spans)) cells }
    ensures none { (cells : List (Cell T)) → map (gone_in_any []) cells ≡ cells }
{}

/// What doesn't look at the states of cells is the same of cells with what their states stand for,
/// and these stay as they are while the table keeps its ids.
pub fn shown_cells()
    ensures text { (table : TagStates) (cells : List (Cell ℕ)) → text_of (map (shown table) cells) ≡ text_of cells }
    ensures stamps { (table : TagStates) (cells : List (Cell ℕ)) → stamps_of (map (shown table) cells) ≡ stamps_of cells }
    ensures place { (table : TagStates) (cells : List (Cell ℕ)) (left new : Stamp) → skip_from (map (shown table) cells) left new
        ≡ skip_from cells left new }
    ensures gone { (table : TagStates) (spans : List Span) (cells : List (Cell ℕ))
        → map (shown table) (map (gone_in_any spans) cells) ≡ map (gone_in_any spans) (map (shown table) cells) }
    ensures later { (old new : TagStates) (cells : List (Cell ℕ)) → KeepsIds old new → AreStates old cells → map (shown new) cells
        ≡ map (shown old) cells }
{}
