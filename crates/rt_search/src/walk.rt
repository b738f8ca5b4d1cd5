// The lines and characters of places of a text.
ghost use Rattle.std.specs.Prelude.{◌≡◌, ◌+◌, ◌-◌, ◌^◌, ◌<◌, ◌≤◌, All, IfOk, IsOkUnless, length, map};
ghost use Rattle.rt_stamps.specs.Places.{position_at};
ghost use Rattle.rt_search.specs.Walks.{WalkStands};

use crate::part::Part;
use crate::window::Window;
use rt_stamps::{Fault, Position};
use rt_store::TextStore;
use std::alloc::Global;

/// Where a walk through the characters of a text stands: at a place, of which it knows the line and where that begins.
#[derive(Clone, Copy)]
pub struct Walk {
    pub(crate) place: usize,
    pub(crate) line: usize,
    pub(crate) start: usize,
    pub(crate) window: Window,
}

impl Walk {
    /// One that stands at a character.
    fn at<S: TextStore>(text: &Part<'_, S>, place: usize) -> Walk
        requires { place < length text.now }
        ensures stands { WalkStands text.now result }
        ensures place { result.place ≡ place }
    {
        let (line, start) = text.line_at(place);
        Walk {
            place,
            line,
            start,
            window: Window::new(),
        }
    }

    /// Goes to the next character, where there is one.
    fn step<S: TextStore>(&mut self, text: &Part<'_, S>)
        requires stands { WalkStands text.now self.old }
        requires within { self.old.place + 1 < length text.now }
        requires fits { length text.now < 2 ^ 64 }
        ensures stands { WalkStands text.now self.new }
        ensures place { self.new.place ≡ self.old.place + 1 }
    {
        let character = self.window.at(text, self.place);
        self.place += 1;
        if character == '\n' {
            self.line += 1;
            self.start = self.place;
        }
    }

    /// Goes on to a later character.
    fn go_to<S: TextStore>(&mut self, text: &Part<'_, S>, place: usize)
        requires stands { WalkStands text.now self.old }
        requires later { self.old.place ≤ place }
        requires within { place < length text.now }
        requires fits { length text.now < 2 ^ 64 }
        ensures stands { WalkStands text.now self.new }
        ensures place { self.new.place ≡ place }
    {
        while self.place < place {
            self.step(text);
        }
    }

    /// The line and the character of the place where it stands.
    fn position(&self) -> Position
        requires { self.now.start ≤ self.now.place }
        ensures { result ≡ record { line = self.now.line; character = self.now.place - self.now.start } }
    {
        Position {
            line: self.line,
            character: self.place - self.start,
        }
    }
}

/// The lines and characters of places of a text, in their order. From a place to a later one it reads the characters
/// between, once and in pieces; where a place is less than the one before it, it finds the line anew. So places that
/// rise cost one pass from the first to the last of them. `NoMemory` where the list can't grow.
pub fn positions<S: TextStore>(
    alloc: Global,
    text: &Part<'_, S>,
    places: &[usize],
) -> Result<Vec<Position>, Fault>
    requires { All (λ place. place < length text.now) places.now }
    ensures ok { IfOk result (λ positions. positions.items ≡ map (position_at text.now) places.now) }
    ensures err { IsOkUnless result Fault.NoMemory }
{
    let mut positions = Vec::new(alloc);
    let Some(first) = places.first() else {
        return Ok(positions);
    };
    let _ = text.len();
    let mut walk = Walk::at(text, *first);
    for place in places {
        if *place < walk.place {
            walk = Walk::at(text, *place);
        } else {
            walk.go_to(text, *place);
        }
        positions.push(walk.position())?;
    }
    Ok(positions)
}
