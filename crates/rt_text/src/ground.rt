// What index expressions see of a widget.
ghost use Rattle.std.specs.Prelude.{◌≡◌, ℕ, ◌≤◌, List, IsSome, map, length};
ghost use Rattle.rt_marks.specs.Marks.{IsName, mark_of_name};
ghost use Rattle.rt_stamps.specs.declared.limits.TheConstants.{MOST_CELLS};
ghost use Rattle.rt_stamps.specs.Places.{line_of};
ghost use Rattle.rt_store.specs.Cells.{text_of};
ghost use Rattle.rt_plans.specs.Listed.{AreListed};
ghost use Rattle.rt_store.specs.Shown.{shown};
ghost use Rattle.rt_text.specs.Owned.{widget_value};
ghost use Rattle.rt_text.specs.Lines.{AreLines};

use crate::characters::{last_within, next_within};
use crate::index::last_line;
use crate::{Doc, OwnMark, Widget};
use rt_index::Ground;
use rt_lines::Stretch;
use rt_marks::Marks;
use rt_store::TextStore;
use rt_tags::{StateTable, TagTable};

/// A widget with the text, the marks and the tags of its site, the stretch of the text that it shows, and
/// the line of the whole text where that begins.
#[derive(Drop)]
pub(crate) struct WidgetGround<'a, S: TextStore> {
    pub doc: &'a Doc<S>,
    pub store: &'a S,
    pub marks: &'a Marks,
    pub states: &'a StateTable,
    pub tags: &'a TagTable,
    pub widget: &'a Widget,
    pub stretch: Stretch,
    pub first: usize,
    ghost same: { doc.now.cells ≡ map (shown states.now) (S.list store.now) },
    ghost listed: { AreListed tags.now.names (map (shown states.now) (S.list store.now)) },
    ghost text: { text_of (map (shown states.now) (S.list store.now)) ≡ text_of (S.list store.now) },
    ghost few: { length (text_of (map (shown states.now) (S.list store.now))) ≤ MOST_CELLS },
    ghost lines: { AreLines (text_of (map (shown states.now) (S.list store.now))) stretch },
    ghost begins: { first ≡ line_of (text_of (map (shown states.now) (S.list store.now))) stretch.begin },
    ghost names: { (name : List ℕ) → IsSome (mark_of_name name marks.now) → IsName name },
}

impl<'a, S: TextStore> Ground for WidgetGround<'a, S> {
    ghost use Rattle.rt_text.specs.Grounds.{widget_over};
    ghost use Rattle.rt_text.specs.Proper.{proper_over};
    ghost use Rattle.std.specs.Prelude.{map};
    ghost use Rattle.rt_store.specs.Shown.{shown};

    ghost widget = { λ g. widget_over g.stretch (map (shown g.states.now) (S.list g.store.now)) g.marks.now g.tags.now.names (widget_value g.widget.now) };

    fn len(&self) -> usize {
        self.stretch.end - self.stretch.begin
    }

    fn lines(&self) -> usize {
        last_line(self.store, self.stretch) - self.first + 1
    }

    fn char_at(&self, place: usize) -> char {
        self.store.char_at(self.stretch.begin + place)
    }

    fn characters(&self, place: usize, buffer: &mut [char]) -> usize {
        let count = buffer.len().min(self.len().saturating_sub(place));
        self.store.characters(
            self.stretch.begin.saturating_add(place),
            &mut buffer[..count],
        )
    }

    fn line_start(&self, line: usize) -> usize {
        self.store.line_start(line + self.first - 1) - self.stretch.begin
    }

    fn line_of(&self, place: usize) -> usize {
        self.store.line_of(self.stretch.begin + place) - self.first + 1
    }

    fn mark(&self, name: &str) -> Option<usize> {
        match OwnMark::of(name) {
            Some(OwnMark::Insert) => Some(self.stretch.cursor(self.widget.place(OwnMark::Insert))),
            Some(which) => Some(self.stretch.place(self.widget.place(which))),
            None => Some(self.stretch.place(self.marks.place(name)?)),
        }
    }

    fn has_tag(&self, name: &str) -> bool {
        self.tags.has(name)
    }

    fn tag_first(&self, name: &str) -> Option<usize> {
        if !self.tags.has(name) {
            return None;
        }
        let widget = self.widget;
        let (store, states) = self.doc.kept();
        next_within(
            store,
            states,
            &widget.selection,
            name,
            true,
            self.stretch,
            0,
        )
    }

    fn tag_last(&self, name: &str) -> Option<usize> {
        if !self.tags.has(name) {
            return None;
        }
        let widget = self.widget;
        let (store, states) = self.doc.kept();
        let last = last_within(store, states, &widget.selection, name, self.stretch)?;
        Some(last + 1)
    }

    ghost proper = { λ g. proper_over g.stretch (map (shown g.states.now) (S.list g.store.now)) g.marks.now g.tags.now.names (widget_value g.widget.now)
        g.lines g.few g.names g.listed };
}
