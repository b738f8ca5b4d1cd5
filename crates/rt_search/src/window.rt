// The stretch of a text's characters that was read last.
ghost use Rattle.std.specs.Prelude.{◌≡◌, ℕ, List, ◌+◌, ◌<◌, ◌≤◌, ◌↔◌, IsTrue, Some, length, slice_get};
ghost use Rattle.rt_search.specs.Windows.{Shows};

use crate::part::Part;
use rt_store::TextStore;

/// How many characters a window holds.
pub(crate) const WINDOW_CHARACTERS: usize = 256;

/// Characters of a text from a place on, as many as `len`; the others mean nothing.
#[derive(Clone, Copy)]
pub struct Window {
    pub(crate) start: usize,
    pub(crate) len: usize,
    pub(crate) chars: [char; WINDOW_CHARACTERS],
}

impl Window {
    /// A window that shows nothing.
    pub(crate) fn new() -> Window
        ensures { (text : List ℕ) → Shows text result }
    {
        Window {
            start: 0,
            len: 0,
            chars: ['\0'; WINDOW_CHARACTERS],
        }
    }

    /// Whether it shows a place.
    pub(crate) fn has(&self, place: usize) -> bool
        ensures { IsTrue result ↔ ((self.now.start ≤ place) × (place < self.now.start + self.now.len)) }
    {
        self.start <= place && place - self.start < self.len
    }

    /// The character at a place, which the window is moved to if it doesn't show it: up so that it begins there,
    /// down so that it ends there.
    pub(crate) fn at<S: TextStore>(&mut self, text: &Part<'_, S>, place: usize) -> char
        requires place { place < length text.now }
        requires shows { Shows text.now self.old }
        ensures value { slice_get text.now place ≡ Some result }
        ensures shows { Shows text.now self.new }
    {
        if !self.has(place) {
            let start = if place < self.start {
                (place + 1).saturating_sub(WINDOW_CHARACTERS)
            } else {
                place
            };
            self.start = start;
            self.len = text.characters(start, &mut self.chars);
        }
        self.chars[place - self.start]
    }
}
