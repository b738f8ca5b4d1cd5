// Laws of the definitions, each the contract of a function that does nothing.
ghost use Rattle.std.specs.Prelude.{◌≡◌, ◌<◌, ◌≤◌, ◌^◌, ℕ, Ok, codes, encode_utf8_all, length, min};
ghost use Rattle.rt_stamps.specs.Places.{EndsWithNewline};
ghost use Rattle.rt_index.specs.Index.{index_of};
ghost use Rattle.rt_index.specs.Widget.{IndexedWidget};
ghost use Rattle.rt_lines.specs.Limits.{no_limits};
ghost use Rattle.rt_store.specs.Cells.{EndsFinal, text_of};
ghost use Rattle.rt_text.specs.Commands.{got};
ghost use Rattle.rt_text.specs.PlaceWords.{place_word};
ghost use Rattle.rt_text.specs.Widgets.{ViewValue, length_shown, text_shown, widget_of};

/// Whatever marks and tags there are, the index `1.0` is the place of the first character that a widget shows, and `end`
/// is behind the last one (Tk text manual, "Indices"). So `get 1.0 end` gives all that a widget shows, which without
/// limits is the whole text: its visible characters.
pub fn whole_text()
    ensures first { (view : ViewValue) → EndsWithNewline (text_shown view) → index_of (widget_of view) (codes "1.0") ≡ Ok 0 }
    ensures end { (view : ViewValue) → index_of (widget_of view) (codes "end") ≡ Ok (length_shown view) }
    ensures got { (view : ViewValue) → EndsWithNewline (text_shown view) → got view (codes "1.0") (codes "end") ≡ Ok (encode_utf8_all (text_shown view)) }
    ensures whole { (view : ViewValue) → EndsFinal view.doc.cells → view.own.limits ≡ no_limits
        → got view (codes "1.0") (codes "end") ≡ Ok (encode_utf8_all (text_of view.doc.cells)) }
{}

/// Whatever marks and tags there are, the index of a place (`PlaceIndex`) names that place of a text that ends with a newline,
/// and the end where the place is past it (Tk text manual, "Indices").
pub fn places_named()
    ensures within { (w : IndexedWidget) (place : ℕ) → EndsWithNewline w.text → place < 2 ^ 64 → place ≤ length w.text
        → index_of w (place_word place) ≡ Ok place }
    ensures any { (w : IndexedWidget) (place : ℕ) → EndsWithNewline w.text → place < 2 ^ 64
        → index_of w (place_word place) ≡ Ok (min place (length w.text)) }
{}
