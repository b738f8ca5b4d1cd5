// The tags of a document: which are listed, which characters have them, and how they are put on and taken off.
ghost use Rattle.std.specs.Prelude.{◌≡◌, ◌⊎◌, All, false, if◌then◌else◌, ◌≤◌, ◌<◌, ◌&&◌, Ok, Err, None, Some, IfOk, IfErr, IsOkUnless, OnOk, OnErr, length, filter, not, option_copied, option_map, slice_get};
ghost use Rattle.std.specs.Str.{bytes_eq};
ghost use Rattle.rt_marks.specs.Marks.{IsName};
ghost use Rattle.rt_stamps.specs.declared.limits.TheConstants.{GREATEST_COUNT, MOST_SPANS};
ghost use Rattle.rt_stamps.specs.Words.{as_words};
ghost use Rattle.rt_store.specs.Cells.{AreDistinct, text_of, visible_of};
ghost use Rattle.rt_plans.specs.Removals.{is_covered, RangesFollow};
ghost use Rattle.rt_text.specs.Owned.{widget_value};
ghost use Rattle.rt_text.specs.Widgets.{is_tagged_in, shows_tag, tags_shown};
ghost use Rattle.rt_store.specs.Tagged.{next_place, previous_place};
ghost use Rattle.rt_tags.specs.States.{IsState};
ghost use Rattle.rt_tags.specs.Tags.{is_listed, is_place, lowered, raised, sel};
ghost use Rattle.rt_plans.specs.DocValue.{logged};
ghost use Rattle.rt_plans.specs.TagDrafts.{tag_deletion_drafts, tag_drafts_at};
ghost use Rattle.rt_plans.specs.TagWrites.{listed_if, with_tag_at, without_tags};
ghost use Rattle.rt_text.specs.Commands.{clock_check};
ghost use Rattle.rt_plans.specs.Listed.{AreListed};
ghost use Rattle.rt_plans.specs.Selected.{selected_stamps};
ghost use Rattle.rt_store.specs.Shown.{shown};
ghost use Rattle.rt_store.specs.Written.{AreWritten};
ghost use Rattle.rt_lines.specs.Stretches.{shown_part};

use super::Doc;
use crate::Widget;
use crate::characters::{cell_has, next_within, previous_within};
use rt_plans::drafting::{planned_tag, planned_tag_deletion};
use rt_plans::listing::{forget_all, list_if, prepare_if};
use rt_plans::{Range, Selection};
use rt_rga::OneOrMany;
use rt_stamps::Fault;
use rt_store::{Cell, TextStore};
use rt_tags::{StateId, StateTable, TagTable};

// Keeps of some names those of the tags on the character of a cell.
fn keep_tags_on(
    states: &StateTable,
    selection: &Selection,
    cell: Cell<StateId>,
    names: &mut Vec<String>,
)
    requires { IsState states.now cell.state }
    ensures { as_words names.new.items
        ≡ filter (λ name. is_tagged_in (selected_stamps selection.now) name (shown states.now cell)) (as_words names.old.items) }
{
    names.retain(
        |name|
            requires { IsState states.now cell.state }
        { cell_has(states, selection, cell, name) },
    );
}

impl<S: TextStore> Doc<S> {
    /// The tags that the site lists.
    pub fn tags(&self) -> &TagTable
        ensures names { result.now.names ≡ self.now.tags }
        ensures listed { AreListed self.now.tags self.now.cells }
    {
        &self.tags
    }

    /// No two cells have one stamp, and no write on a character is newer than the document's count.
    pub fn order(&self)
        ensures stamps { AreDistinct self.now.cells }
        ensures writes { AreWritten self.now.count self.now.cells }
    {
        // For its clauses alone.
        let _ = self.log();
    }

    /// The least place from one up whose character has a tag on the widget; none if there is none. It
    /// takes no memory.
    pub(crate) fn next_tagged(&self, widget: &Widget, name: &str, place: usize) -> Option<usize>
        ensures { result ≡ next_place (shows_tag (widget_value widget.now) name.now) (shown_part self.now.cells widget.now.limits) place }
    {
        let (store, states) = self.kept();
        let stretch = widget.limits().stretch(store);
        let selection = &widget.selection;
        next_within(store, states, selection, name, true, stretch, place)
    }

    /// The least place from one up whose character hasn't a tag on the widget; none if there is none.
    /// It takes no memory.
    pub(crate) fn next_untagged(&self, widget: &Widget, name: &str, place: usize) -> Option<usize>
        ensures { result ≡ next_place (λ cell. not (shows_tag (widget_value widget.now) name.now cell)) (shown_part self.now.cells widget.now.limits) place }
    {
        let (store, states) = self.kept();
        let stretch = widget.limits().stretch(store);
        let selection = &widget.selection;
        next_within(store, states, selection, name, false, stretch, place)
    }

    /// The greatest place below one whose character has a tag on the widget; none if there is none. It
    /// takes no memory.
    pub(crate) fn previous_tagged(&self, widget: &Widget, name: &str, place: usize) -> Option<usize>
        ensures { result ≡ previous_place (shows_tag (widget_value widget.now) name.now) (shown_part self.now.cells widget.now.limits) place }
    {
        let (store, states) = self.kept();
        let stretch = widget.limits().stretch(store);
        let selection = &widget.selection;
        previous_within(store, states, selection, name, stretch, place)
    }

    /// The listed tags of the character at a place on a widget, lowest priority first (Tk text manual,
    /// "tag names"). Want of memory.
    pub(crate) fn tags_at(&self, widget: &Widget, place: usize) -> Result<Vec<String>, Fault>
        requires { place < length (shown_part self.now.cells widget.now.limits) }
        ensures ok { IfOk result (λ names.
            option_map (tags_shown (widget_value widget.now) self.now.tags) (slice_get (shown_part self.now.cells widget.now.limits) place)
            ≡ Some (as_words names.items)) }
        ensures err { IsOkUnless result Fault.NoMemory }
    {
        let (store, states) = self.kept();
        let cell = store.cell_at(widget.limits().stretch(store).begin + place);
        let mut names = self.tags.names()?;
        keep_tags_on(states, &widget.selection, cell, &mut names);
        Ok(names)
    }

    // Puts a tag that isn't `sel` on the characters in ranges, or takes it off.
    pub(crate) fn write_shared(
        &mut self,
        on: bool,
        name: &str,
        ranges: &[Range],
    ) -> Result<(), Fault>
        requires name { IsName name.now }
        requires shared { bytes_eq name.now sel ≡ false }
        requires order { RangesFollow 0 ranges.now }
        requires within { All (λ range. range.to ≤ length (visible_of self.old.cells)) ranges.now }
        ensures ok { OnOk result (self.new ≡ logged self.old (tag_drafts_at MOST_SPANS (is_covered ranges.now) on name.now self.old.cells)
            (listed_if on name.now (with_tag_at self.old (is_covered ranges.now) on name.now))) }
        ensures within { OnOk result (self.new.count ≤ GREATEST_COUNT) }
        ensures err { IfErr result (λ fault. (fault ≡ Fault.NoMemory)
            ⊎ ((fault ≡ Fault.ClockSpent) × (GREATEST_COUNT < (with_tag_at self.old (is_covered ranges.now) on name.now).count))) }
        ensures unchanged { OnErr result (self.new ≡ self.old) }
    {
        let (store, states) = self.kept();
        let drafts = planned_tag(self.alloc, store, states, ranges, name, on)?;
        prepare_if(&mut self.tags, on, name)?;
        self.replica.commit(OneOrMany::Many(drafts))?;
        list_if(&mut self.tags, on, name);
        Ok(())
    }

    // Takes tags off all characters, and lists them no longer.
    pub(crate) fn delete_tags(&mut self, names: &[String]) -> Result<(), Fault>
        ensures ok { OnOk result (self.new ≡ logged self.old (tag_deletion_drafts MOST_SPANS self.old (as_words names.now))
            (without_tags self.old (as_words names.now))) }
        ensures checked { OnOk result (clock_check self.new.count ≡ None) }
        ensures err { IfErr result (λ fault. (fault ≡ Fault.NoMemory)
            ⊎ (clock_check (without_tags self.old (as_words names.now)).count ≡ Some fault)) }
        ensures unchanged { OnErr result (self.new ≡ self.old) }
        ensures text { text_of self.new.cells ≡ text_of self.old.cells }
    {
        let (store, states) = self.kept();
        let drafts = planned_tag_deletion(self.alloc, store, states, &self.tags, names)?;
        self.replica.commit(OneOrMany::Many(drafts))?;
        forget_all(&mut self.tags, names);
        Ok(())
    }

    /// Raises a tag just above another, or above all ("tag raise"). `NoTag` just where one of them
    /// isn't listed, and then nothing changes. It takes no memory.
    pub fn raise_tag(&mut self, name: &str, above: Option<&str>) -> Result<(), Fault>
        ensures ok { OnOk result (self.new ≡ record self.old { tags = raised name.now (option_copied above.entry) self.old.tags }) }
        ensures unchanged { OnErr result (self.new ≡ self.old) }
        ensures answer { result ≡ (if is_listed name.now self.old.tags
            && is_place (option_copied above.entry) self.old.tags then Ok tt else Err Fault.NoTag) }
    {
        self.tags.raise(name, above)
    }

    /// Lowers a tag just below another, or below all ("tag lower"). `NoTag` just where one of them
    /// isn't listed, and then nothing changes. It takes no memory.
    pub fn lower_tag(&mut self, name: &str, below: Option<&str>) -> Result<(), Fault>
        ensures ok { OnOk result (self.new ≡ record self.old { tags = lowered name.now (option_copied below.entry) self.old.tags }) }
        ensures unchanged { OnErr result (self.new ≡ self.old) }
        ensures answer { result ≡ (if is_listed name.now self.old.tags
            && is_place (option_copied below.entry) self.old.tags then Ok tt else Err Fault.NoTag) }
    {
        self.tags.lower(name, below)
    }
}
