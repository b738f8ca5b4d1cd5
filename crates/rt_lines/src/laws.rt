// Laws of the definitions, each the contract of a function that does nothing.
ghost use Rattle.std.specs.Prelude.{◌≡◌, ℕ, ◌+◌, ◌<◌, ◌≤◌, ◌∷◌, [], false, IsOk, List, None, Ok, Some, length, map, option_and_then, option_map, unwrap_or};
ghost use Rattle.rt_stamps.specs.Places.{EndsWithNewline, newlines};
ghost use Rattle.rt_stamps.specs.declared.stamp.Stamp.{Stamp};
ghost use Rattle.rt_store.specs.declared.cell.Cell.{Cell};
ghost use Rattle.rt_store.specs.Cells.{AreDistinct, EndsFinal, cell_of, map_state, position_of, put_at, stamps_of, text_of, visible_of};
ghost use Rattle.rt_store.specs.Spans.{is_among};
ghost use Rattle.rt_lines.specs.declared.choice.Choice.{Choice};
ghost use Rattle.rt_lines.specs.declared.limits.Limits.{Limits};
ghost use Rattle.rt_lines.specs.declared.choice.Choice.TheVariants.{Away, Kept, Line};
ghost use Rattle.rt_lines.specs.Choices.{end_asked, limits_chosen};
ghost use Rattle.rt_lines.specs.Limits.{end_number, first_line, last_line, limits_renamed, line_behind, no_limits, start_number};
ghost use Rattle.rt_lines.specs.Ordered.{LimitsAreInOrder, IsStart, StandAmong, letters_of};
ghost use Rattle.rt_lines.specs.Stretches.{shown_part, stretch_of};

/// Without limits all of a text is shown. Whatever the limits are, and whichever newlines are gone, what is shown lies
/// in the text, has a character at least, and ends with a newline.
pub fn shown_lines<T>()
    ensures all { (cells : List (Cell T)) → EndsFinal cells → stretch_of cells no_limits ≡ record { begin = 0; end = length (visible_of cells) } }
    ensures some { (cells : List (Cell T)) (limits : Limits) → EndsFinal cells → (stretch_of cells limits).begin < (stretch_of cells limits).end }
    ensures within { (cells : List (Cell T)) (limits : Limits) → EndsFinal cells → (stretch_of cells limits).end ≤ length (visible_of cells) }
    ensures newline { (cells : List (Cell T)) (limits : Limits) → EndsFinal cells
        → EndsWithNewline (map (λ cell. cell.ch) (shown_part cells limits)) }
{}

/// What is shown of a text, and what options ask for, is the same of cells in other states, as of a document's cells,
/// which have what the states of the store's stand for.
pub fn limits_without_states<S, T>()
    ensures stretch { (f : S → T) (cells : List (Cell S)) (limits : Limits) → stretch_of (map (map_state f) cells) limits ≡ stretch_of cells limits }
    ensures first { (f : S → T) (cells : List (Cell S)) (limits : Limits) → first_line (map (map_state f) cells) limits ≡ first_line cells limits }
    ensures last { (f : S → T) (cells : List (Cell S)) (limits : Limits) → last_line (map (map_state f) cells) limits ≡ last_line cells limits }
    ensures chosen { (f : S → T) (cells : List (Cell S)) (start end : Choice) (limits : Limits)
        → limits_chosen (map (map_state f) cells) start end limits ≡ limits_chosen cells start end limits }
{}

/// Where the limit at the start stands before the one at the end, the first line that is shown is the one behind it:
/// no line is cut off.
pub fn ordered_limits<T>()
    ensures { (cells : List (Cell T)) (limits : Limits) (stamp : Stamp) (position : ℕ) → EndsFinal cells → IsStart cells limits stamp position
        → line_behind cells stamp ≡ Some (first_line cells limits) }
{}

/// Limits stay in their order, each none or a newline, perhaps a gone one, and the start's before the end's. They are so
/// where there are none, and where a command asked for them and those before were so. They stay so while more cells
/// come in among those of the text, and these go or come into other states. Where a newline comes back directly behind
/// its old cell, it takes this one's place as a limit. No line is cut off: what is shown begins behind the start.
pub fn limits_in_order<S, T>()
    ensures none { (cells : List (Cell T)) → LimitsAreInOrder cells no_limits }
    ensures chosen { (cells : List (Cell T)) (start end : Choice) (limits chosen : Limits) → AreDistinct cells → EndsFinal cells
        → LimitsAreInOrder cells limits
        → limits_chosen cells start end limits ≡ Ok chosen → LimitsAreInOrder cells chosen }
    ensures grown { (cells : List (Cell S)) (more : List (Cell T)) (limits : Limits) → AreDistinct cells → EndsFinal cells → AreDistinct more
        → StandAmong (letters_of cells) (letters_of more) → LimitsAreInOrder cells limits → LimitsAreInOrder more limits }
    ensures came_back { (cells : List (Cell T)) (limits : Limits) (former : Stamp) (position : ℕ) (new : Cell T)
        → position_of cells former ≡ Some position → option_map (λ cell. cell.ch) (cell_of cells former) ≡ Some new.ch
        → is_among (stamps_of cells) new.stamp ≡ false → LimitsAreInOrder cells limits
        → LimitsAreInOrder (put_at (position + 1) (new ∷ []) cells) (limits_renamed former new.stamp limits) }
    ensures first { (cells : List (Cell T)) (limits : Limits) → EndsFinal cells → LimitsAreInOrder cells limits
        → first_line cells limits ≡ unwrap_or (option_and_then (line_behind cells) limits.start) 1 }
{}

/// The lines that a command asks for are those that its limits show: up to the last one asked for, from the first one
/// where it is named, from line 1 where the limit there is taken away, or none is kept there, and from the line that
/// was first before where that limit is kept and stands before the one at the end. A line and a later one behind it are
/// never refused. Where both limits are taken away all of the text is shown, and this is never refused.
pub fn chosen_lines<T>()
    ensures first { (cells : List (Cell T)) (line : ℕ) (end : Choice) (limits chosen : Limits) → AreDistinct cells
        → limits_chosen cells (Line line) end limits ≡ Ok chosen → first_line cells chosen ≡ line }
    ensures whole_start { (cells : List (Cell T)) (end : Choice) (limits chosen : Limits) → AreDistinct cells
        → limits_chosen cells Away end limits ≡ Ok chosen → first_line cells chosen ≡ 1 }
    ensures kept_start { (cells : List (Cell T)) (end : Choice) (limits chosen : Limits) (stamp : Stamp) (position : ℕ) → AreDistinct cells
        → EndsFinal cells → IsStart cells limits stamp position
        → limits_chosen cells Kept end limits ≡ Ok chosen → first_line cells chosen ≡ first_line cells limits }
    ensures without_start { (cells : List (Cell T)) (end : Choice) (limits chosen : Limits) → AreDistinct cells → limits.start ≡ None
        → limits_chosen cells Kept end limits ≡ Ok chosen → first_line cells chosen ≡ 1 }
    ensures last { (cells : List (Cell T)) (start end : Choice) (limits chosen : Limits) → AreDistinct cells
        → limits_chosen cells start end limits ≡ Ok chosen → last_line cells chosen + 1 ≡ end_asked cells limits end }
    ensures whole { (cells : List (Cell T)) (limits chosen : Limits) → EndsFinal cells
        → limits_chosen cells Away Away limits ≡ Ok chosen → stretch_of cells chosen ≡ record { begin = 0; end = length (visible_of cells) } }
    ensures lines_taken { (cells : List (Cell T)) (line end : ℕ) (limits : Limits) → 1 ≤ line → line < end → end ≤ newlines (text_of cells) + 1
        → IsOk (limits_chosen cells (Line line) (Line end) limits) }
    ensures never_refused { (cells : List (Cell T)) (limits : Limits) → EndsFinal cells → limits_chosen cells Away Away limits ≡ Ok no_limits }
{}

/// What the options tell is what a command asked for. A line that is named is told, but for line 1 at the start and for
/// the line behind all at the end, where there is no limit. Nor is there one where it is taken away. One that is kept
/// tells what it told before: at the end always, at the start where it stands before the one at the end.
pub fn told_lines<T>()
    ensures start_named { (cells : List (Cell T)) (line : ℕ) (end : Choice) (limits chosen : Limits) → AreDistinct cells → 1 < line
        → limits_chosen cells (Line line) end limits ≡ Ok chosen → start_number cells chosen ≡ Some line }
    ensures start_first { (cells : List (Cell T)) (end : Choice) (limits chosen : Limits)
        → limits_chosen cells (Line 1) end limits ≡ Ok chosen → start_number cells chosen ≡ None }
    ensures start_away { (cells : List (Cell T)) (end : Choice) (limits chosen : Limits)
        → limits_chosen cells Away end limits ≡ Ok chosen → start_number cells chosen ≡ None }
    ensures start_kept { (cells : List (Cell T)) (end : Choice) (limits chosen : Limits) (stamp : Stamp) (position : ℕ) → AreDistinct cells
        → EndsFinal cells → IsStart cells limits stamp position
        → limits_chosen cells Kept end limits ≡ Ok chosen → start_number cells chosen ≡ start_number cells limits }
    ensures end_named { (cells : List (Cell T)) (start : Choice) (line : ℕ) (limits chosen : Limits) → AreDistinct cells
        → line ≤ newlines (text_of cells) → limits_chosen cells start (Line line) limits ≡ Ok chosen → end_number cells chosen ≡ Some line }
    ensures end_behind { (cells : List (Cell T)) (start : Choice) (limits chosen : Limits)
        → limits_chosen cells start (Line (newlines (text_of cells) + 1)) limits ≡ Ok chosen → end_number cells chosen ≡ None }
    ensures end_away { (cells : List (Cell T)) (start : Choice) (limits chosen : Limits)
        → limits_chosen cells start Away limits ≡ Ok chosen → end_number cells chosen ≡ None }
    ensures end_kept { (cells : List (Cell T)) (start : Choice) (limits chosen : Limits)
        → limits_chosen cells start Kept limits ≡ Ok chosen → end_number cells chosen ≡ end_number cells limits }
{}
