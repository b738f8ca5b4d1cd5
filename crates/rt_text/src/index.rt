// Positions and lines of places.
ghost use Rattle.std.specs.Prelude.{◌≡◌, ◌-◌, ◌≤◌, length};
ghost use Rattle.rt_stamps.specs.Places.{line_of, position_at};
ghost use Rattle.rt_lines.specs.Stretches.{part};
ghost use Rattle.rt_store.specs.Cells.{text_of, visible_of};
ghost use Rattle.rt_text.specs.Lines.{AreLines};

use rt_lines::Stretch;
use rt_stamps::Position;
use rt_store::TextStore;

// The position of a place, which is at most the text's end.
fn position_at<S: TextStore>(store: &S, place: usize) -> Position
    requires { place ≤ length (text_of (S.list store.now)) }
    ensures { result ≡ position_at (text_of (S.list store.now)) place }
{
    let line = store.line_of(place);
    if line > store.lines() {
        return Position { line, character: 0 };
    }
    Position {
        line,
        character: place - store.line_start(line),
    }
}

/// The line of a place. For the first place nothing is looked up.
pub(crate) fn line_at<S: TextStore>(store: &S, place: usize) -> usize
    requires { place ≤ length (visible_of (S.list store.now)) }
    ensures { result ≡ line_of (text_of (S.list store.now)) place }
{
    if place == 0 { 1 } else { store.line_of(place) }
}

/// The line of the last place of a stretch of whole lines. At the text's end it is the last one, with nothing looked up.
pub(crate) fn last_line<S: TextStore>(store: &S, stretch: Stretch) -> usize
    requires { AreLines (text_of (S.list store.now)) stretch }
    ensures { result ≡ line_of (text_of (S.list store.now)) (stretch.end - 1) }
{
    if stretch.end == store.visible() {
        store.lines()
    } else {
        store.line_of(stretch.end - 1)
    }
}

/// The position of a place of a stretch of whole lines of the text, which is at most the stretch's end.
pub(crate) fn position_within<S: TextStore>(store: &S, stretch: Stretch, place: usize) -> Position
    requires lines { AreLines (text_of (S.list store.now)) stretch }
    requires place { place ≤ length (part stretch (text_of (S.list store.now))) }
    ensures { result ≡ position_at (part stretch (text_of (S.list store.now))) place }
{
    let position = position_at(store, stretch.begin + place);
    Position {
        line: position.line - (line_at(store, stretch.begin) - 1),
        character: position.character,
    }
}
