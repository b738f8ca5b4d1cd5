// The text that is searched.
ghost use Rattle.std.specs.Prelude.{◌≡◌, ◌-◌, ◌<◌, ◌≤◌, drop, length, min, take};
ghost use Rattle.rt_stamps.specs.Places.{line_of, line_start};
ghost use Rattle.rt_store.specs.Cells.{text_of};
ghost use Rattle.rt_lines.specs.Stretches.{part};

use rt_lines::Stretch;
use rt_store::TextStore;
use std::marker::Model;

/// The characters of a stretch of a store's text. Contracts see it as the list of them: places count from its beginning.
#[derive(Drop)]
pub struct Part<'a, S: TextStore> {
    store: &'a S,
    stretch: Stretch,
}

impl<'a, S: TextStore> Model for Part<'a, S> {
    ghost use Rattle.std.specs.Prelude.{ℕ, List, length};
    ghost use Rattle.rt_store.specs.Cells.{text_of};
    ghost use Rattle.rt_lines.specs.Stretches.{part};
    ghost use Rattle.rt_search.specs.Parts.{IsStretchIn};

    ghost Value = { List ℕ };

    ghost view = { λ p. part p.stretch (text_of (S.list p.store.now)) };

    ghost invariant = { λ p. IsStretchIn (length (text_of (S.list p.store.now))) p.stretch };
}

impl<'a, S: TextStore> Part<'a, S> {
    /// What stands at the places of a stretch.
    pub fn of(store: &'a S, stretch: Stretch) -> Part<'a, S>
        requires order { stretch.begin ≤ stretch.end }
        requires within { stretch.end ≤ length (text_of (S.list store.now)) }
        ensures { result ≡ part stretch (text_of (S.list store.now)) }
    {
        Part { store, stretch }
    }

    /// How many characters it has.
    pub fn len(&self) -> usize
        ensures { result ≡ length self.now }
    {
        self.stretch.end - self.stretch.begin
    }

    /// Puts the characters from a place on into a buffer, from its front on: all that it has there, or as many as the
    /// buffer holds. Answers how many these are; what is behind them in the buffer stays. Takes no memory.
    pub fn characters(&self, place: usize, buffer: &mut [char]) -> usize
        requires { place ≤ length self.now }
        ensures count { result ≡ min (length buffer.old) (length self.now - place) }
        ensures characters { take result buffer.new ≡ take result (drop place self.now) }
        ensures rest { drop result buffer.new ≡ drop result buffer.old }
    {
        let stretch = self.stretch;
        let count = buffer.len().min(stretch.end - stretch.begin - place);
        self.store
            .characters(stretch.begin + place, &mut buffer[..count])
    }

    /// The line of a character, and the place where that line begins.
    pub(crate) fn line_at(&self, place: usize) -> (usize, usize)
        requires { place < length self.now }
        ensures line { result.0 ≡ line_of self.now place }
        ensures start { result.1 ≡ line_start self.now (line_of self.now place) }
    {
        let stretch = self.stretch;
        let line = self.store.line_of(stretch.begin + place);
        let start = self.store.line_start(line).saturating_sub(stretch.begin);
        (line - self.store.line_of(stretch.begin) + 1, start)
    }
}
