// Where one place is after an edit of the text.
ghost use Rattle.std.specs.Prelude.{◌≡◌, ◌+◌, ◌≤◌};
ghost use Rattle.rt_marks.specs.Marks.{place_moved, place_removed};

use crate::Gravity;

/// Where a mark at a place with some gravity stands after `n` characters were inserted at `at`. It moves
/// on if it stands behind `at`, and if it stands at `at` with right gravity (Tk text manual, "mark
/// gravity").
pub fn place_inserted(at: usize, n: usize, place: usize, gravity: Gravity) -> usize
    requires fits { place + n ≤ usize.MAX }
    ensures { result ≡ place_moved at n place gravity }
{
    let moves = match gravity {
        Gravity::Left => at < place,
        Gravity::Right => at <= place,
    };
    if moves { place + n } else { place }
}

/// Where a place is after the `n` characters from `at` on were removed: it stays if it stands before
/// them, it is `at` if it stands within or just behind them, and else it moves back by `n`.
pub fn place_removed(at: usize, n: usize, place: usize) -> usize
    ensures { result ≡ place_removed at n place }
{
    if place <= at {
        place
    } else {
        place - n.min(place - at)
    }
}
