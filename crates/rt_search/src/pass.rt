// A pass through the text that comes to each match.
ghost use Rattle.std.specs.Prelude.{◌≡◌, ◌+◌, ◌-◌, ◌^◌, ◌<◌, ◌≤◌, ℕ, List, [], None, IfSome, filter, length};
ghost use Rattle.rt_search.specs.Borders.{CharactersAgree, AreBorders, IsNextMatch, IsPass, left, pattern_read, text_read};
ghost use Rattle.rt_search.specs.Searches.{matches_in, ordered_places, stands_at};
ghost use Rattle.rt_search.specs.Windows.{Shows};

use crate::borders::{further, read_at};
use crate::find::last_end;
use crate::part::Part;
use crate::search::{Search, nth, places};
use crate::window::Window;
use rt_lines::Stretch;
use rt_store::TextStore;

/// The places of a stretch where a match has room: at the others it would run on behind where it must end.
pub(crate) fn room<S: TextStore>(
    text: &Part<'_, S>,
    pattern: &[char],
    search: Search,
    stretch: Stretch,
) -> Stretch
    requires { stretch.end ≤ length text.now }
    ensures begin { result.begin ≡ stretch.begin }
    ensures end { result.end ≤ stretch.end }
    ensures short { length text.now < 2 ^ 64 }
    ensures fits { (place : ℕ) → place < result.end → place + length pattern.now ≤ length text.now }
    ensures matches { matches_in search pattern.now text.now stretch
        ≡ filter (stands_at search.case pattern.now text.now) (ordered_places search.direction result) }
{
    let last = last_end(search.strictness, stretch, text.len());
    let end = last.saturating_sub(pattern.len().saturating_sub(1));
    Stretch {
        begin: stretch.begin,
        end: end.min(stretch.end),
    }
}

/// Where a pass stands: so many places of the stretch are done, and of a match at the next one so many characters agree.
#[derive(Clone, Copy)]
pub struct Pass {
    pub(crate) start: usize,
    pub(crate) agreed: usize,
    pub(crate) window: Window,
}

impl Pass {
    /// One that has read nothing.
    pub(crate) fn new() -> Pass
        ensures start { result.start ≡ 0 }
        ensures agreed { result.agreed ≡ 0 }
        ensures shows { (text : List ℕ) → Shows text result.window }
    {
        Pass {
            start: 0,
            agreed: 0,
            window: Window::new(),
        }
    }

    /// Reads one character more, and goes on to the first place where a match can begin that has it.
    fn read<S: TextStore>(
        &mut self,
        text: &Part<'_, S>,
        pattern: &[char],
        borders: &[usize],
        search: Search,
        room: Stretch,
    )
        requires some { 0 < length pattern.now }
        requires many { length borders.now ≡ length pattern.now }
        requires borders { AreBorders (pattern_read search pattern.now) borders.now }
        requires short { length text.now < 2 ^ 64 }
        requires fits { (place : ℕ) → place < room.end → place + length pattern.now ≤ length text.now }
        requires within { self.old.start < room.end - room.begin }
        requires pass { IsPass search pattern.now text.now room self.old }
        ensures shows { Shows text.now self.new.window }
        ensures agrees { CharactersAgree (pattern_read search pattern.now) (text_read search (length pattern.now) text.now room)
            self.new.start self.new.agreed }
        ensures later { self.old.start ≤ self.new.start }
        ensures few { self.new.agreed ≤ length pattern.now }
        ensures more { self.new.start + self.new.agreed ≡ self.old.start + self.old.agreed + 1 }
        ensures left { left search pattern.now text.now room self.old.start ≡ left search pattern.now text.now room self.new.start }
    {
        let place = nth(room, search.direction, self.start);
        let ahead = read_at(search.direction, pattern.len(), self.agreed);
        let character = self.window.at(text, place + ahead);
        let agreed = further(search, pattern, borders, self.agreed, character);
        self.start += self.agreed + 1 - agreed;
        self.agreed = agreed;
    }

    /// Goes on to the next match: which of the places of the stretch has it, if one does.
    pub(crate) fn next<S: TextStore>(
        &mut self,
        text: &Part<'_, S>,
        pattern: &[char],
        borders: &[usize],
        search: Search,
        room: Stretch,
    ) -> Option<usize>
        requires many { length borders.now ≡ length pattern.now }
        requires borders { AreBorders (pattern_read search pattern.now) borders.now }
        requires short { length text.now < 2 ^ 64 }
        requires fits { (place : ℕ) → place < room.end → place + length pattern.now ≤ length text.now }
        requires pass { IsPass search pattern.now text.now room self.old }
        ensures pass { IsPass search pattern.now text.now room self.new }
        ensures found { IfSome result (λ index. IsNextMatch search pattern.now text.now room self.old.start self.new.start index) }
        ensures none { result ≡ None → left search pattern.now text.now room self.old.start ≡ [] }
    {
        let end = places(room);
        if pattern.is_empty() {
            if self.start < end {
                let index = self.start;
                self.start += 1;
                return Some(index);
            }
            return None;
        }
        while self.start < end {
            self.read(text, pattern, borders, search, room);
            if self.agreed == pattern.len() {
                let index = self.start;
                let border = borders[pattern.len() - 1];
                self.start += pattern.len() - border;
                self.agreed = border;
                return Some(index);
            }
        }
        None
    }
}
