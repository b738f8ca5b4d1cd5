// What a widget says of the text that it shows: places, positions, ranges, texts, comparisons and distances.
ghost use Rattle.std.specs.Prelude.{◌≡◌, ◌⊎◌, ◌<◌, ◌≤◌, length, Ok, None, Some, IfOk, IfErr, IsOkUnless, encode_utf8_all, map, string_bytes};
ghost use Rattle.rt_index.specs.Index.{index_of};
ghost use Rattle.rt_stamps.specs.Outcomes.{first_of, Refuses};
ghost use Rattle.rt_stamps.specs.Places.{position_at};
ghost use Rattle.rt_stamps.specs.Words.{as_words};
ghost use Rattle.rt_lines.specs.Limits.{end_number, start_number};
ghost use Rattle.rt_text.specs.Index.{index_check, place_at_index};
ghost use Rattle.rt_text.specs.Ranges.{ranges_of, text_between};
ghost use Rattle.rt_store.specs.Cells.{text_of};
ghost use Rattle.rt_text.specs.Widgets.{length_shown, stretch_by, text_shown, widget_of};
ghost use Rattle.rt_text.specs.Commands.{got_one, got, got_list, position_of_index, compared, counted};

use super::ViewRef;
use crate::comparison::holds;
use crate::distance::distances_of;
use crate::range::{ranges_at, shown_between, texts_of};
use rt_index::{Comparison, Measure, place_of_index};
use rt_lines::Stretch;
use rt_plans::Range;
use rt_stamps::{Fault, Position};
use rt_store::TextStore;

impl<'a, S: TextStore> ViewRef<'a, S> {
    /// The place of an index in what the widget shows, from 0 to `visible` (Tk text manual, "Indices").
    /// `BadIndex`, `NoneTagged`, or want of memory.
    pub fn place(&self, index: &str) -> Result<usize, Fault>
        ensures ok { IfOk result (λ place. index_of (widget_of self.now) index.now ≡ Ok place) }
        ensures within { IfOk result (λ place. place ≤ length_shown self.now) }
        ensures err { IfErr result (Refuses (index_of (widget_of self.now) index.now)) }
    {
        place_of_index(self.alloc, &self.doc.ground(self.widget), index)
    }

    // The place of an index, and the places of the text that the widget shows. The faults of `place`.
    #[inline(always)]
    pub(crate) fn place_within(&self, index: &str) -> Result<(usize, Stretch), Fault>
        ensures ok { IfOk result (λ found. index_of (widget_of self.now) index.now ≡ Ok found.0) }
        ensures stretch { IfOk result (λ found. found.1 ≡ stretch_by self.now) }
        ensures some { IfOk result (λ found. found.1.begin < found.1.end) }
        ensures within { IfOk result (λ found. found.1.end ≤ length (text_of self.now.doc.cells)) }
        ensures err { IfErr result (Refuses (index_of (widget_of self.now) index.now)) }
    {
        let ground = self.doc.ground(self.widget);
        let place = place_of_index(self.alloc, &ground, index)?;
        Ok((place, ground.stretch))
    }

    /// The places of the whole text that the widget shows: all of them where it has no limits.
    pub fn stretch(&self) -> Stretch
        ensures value { result ≡ stretch_by self.now }
        ensures some { result.begin < result.end }
        ensures within { result.end ≤ length (text_of self.now.doc.cells) }
    {
        self.doc.stretch(self.widget.limits())
    }

    /// How many characters the widget shows, its last newline included.
    pub fn visible(&self) -> usize
        ensures { result ≡ length_shown self.now }
    {
        let stretch = self.stretch();
        stretch.end - stretch.begin
    }

    /// The line and the character of a place of what the widget shows, from 0 to `visible`.
    pub fn position(&self, place: usize) -> Position
        requires { place ≤ length_shown self.now }
        ensures { result ≡ position_at (text_shown self.now) place }
    {
        self.doc.position(self.widget.limits(), place)
    }

    /// The ranges that indices name in pairs (Tk text manual): a last index without another is one
    /// character. `BadIndex`, `NoneTagged`, or want of memory.
    pub fn ranges(&self, indices: &[String]) -> Result<Vec<Range>, Fault>
        ensures ok { IfOk result (λ ranges. ranges.items
            ≡ ranges_of (map (place_at_index (widget_of self.now)) (as_words indices.now))) }
        ensures checked { IfOk result (λ ranges. first_of (map (index_check (widget_of self.now)) (as_words indices.now)) ≡ None) }
        ensures err { IfErr result (λ fault. (fault ≡ Fault.NoMemory)
            ⊎ (first_of (map (index_check (widget_of self.now)) (as_words indices.now)) ≡ Some fault)) }
    {
        ranges_at(self.alloc, &self.doc.ground(self.widget), indices)
    }

    /// The text from a place of what the widget shows, counted from 0, up to before another; none where that isn't later.
    /// Want of memory.
    pub fn text(&self, from: usize, to: usize) -> Result<String, Fault>
        ensures ok { IfOk result (λ text. string_bytes text ≡ encode_utf8_all (text_between (text_shown self.now) from to)) }
        ensures err { IsOkUnless result Fault.NoMemory }
    {
        let (store, stretch) = self.doc.between(self.widget.limits());
        shown_between(self.alloc, store, stretch, from, to)
    }

    /// `get INDEX` (Tk text manual): the character at the index, none at the text's end. `BadIndex`,
    /// `NoneTagged`, or want of memory.
    pub fn get_one(&self, index: &str) -> Result<String, Fault>
        ensures ok { IfOk result (λ text. got_one self.now index.now ≡ Ok (string_bytes text)) }
        ensures err { IfErr result (Refuses (got_one self.now index.now)) }
    {
        let place = self.place(index)?;
        let (store, stretch) = self.doc.between(self.widget.limits());
        shown_between(self.alloc, store, stretch, place, place.saturating_add(1))
    }

    /// `get INDEX INDEX` (Tk text manual): the characters from the first index up to before the
    /// second, none where that isn't later. `BadIndex`, `NoneTagged`, or want of memory.
    pub fn get(&self, from: &str, to: &str) -> Result<String, Fault>
        ensures ok { IfOk result (λ text. got self.now from.now to.now ≡ Ok (string_bytes text)) }
        ensures err { IfErr result (Refuses (got self.now from.now to.now)) }
    {
        let start = self.place(from)?;
        let end = self.place(to)?;
        self.text(start, end)
    }

    /// `get INDEX INDEX INDEX ...` (Tk text manual): of the ranges that the indices name in pairs,
    /// the texts that aren't empty, in the order given. A last index without another is one
    /// character. `BadIndex`, `NoneTagged`, or want of memory.
    pub fn get_list(&self, indices: &[String]) -> Result<Vec<String>, Fault>
        ensures ok { IfOk result (λ texts. got_list self.now (as_words indices.now) ≡ Ok (as_words texts.items)) }
        ensures err { IfErr result (Refuses (got_list self.now (as_words indices.now))) }
    {
        let ranges = self.ranges(indices)?;
        let (store, stretch) = self.doc.between(self.widget.limits());
        texts_of(self.alloc, store, stretch, &ranges)
    }

    /// `index INDEX` (Tk text manual): the line and the character of the index. `BadIndex`,
    /// `NoneTagged`, or want of memory.
    pub fn index(&self, index: &str) -> Result<Position, Fault>
        ensures ok { IfOk result (λ position. position_of_index self.now index.now ≡ Ok position) }
        ensures err { IfErr result (Refuses (position_of_index self.now index.now)) }
    {
        let place = self.place(index)?;
        Ok(self.doc.position(self.widget.limits(), place))
    }

    /// `compare INDEX OPERATOR INDEX` (Tk text manual): whether the comparison holds of the two
    /// places. `BadIndex`, `NoneTagged`, or want of memory.
    pub fn compare(&self, first: &str, comparison: Comparison, second: &str) -> Result<bool, Fault>
        ensures ok { IfOk result (λ holds. compared self.now first.now comparison second.now ≡ Ok holds) }
        ensures err { IfErr result (Refuses (compared self.now first.now comparison second.now)) }
    {
        let left = self.place(first)?;
        let right = self.place(second)?;
        Ok(holds(comparison, left, right))
    }

    /// `count SWITCHES INDEX INDEX` (Tk text manual): the distances from the first index to the
    /// second, one for each measure in turn, negative where the first is later; in indices where
    /// there is no measure. `BadIndex`, `NoneTagged`, or want of memory.
    pub fn count(&self, measures: &[Measure], from: &str, to: &str) -> Result<Vec<i64>, Fault>
        ensures ok { IfOk result (λ distances. counted self.now measures.now from.now to.now ≡ Ok distances.items) }
        ensures err { IfErr result (Refuses (counted self.now measures.now from.now to.now)) }
    {
        let start = self.place(from)?;
        let end = self.place(to)?;
        let (store, stretch) = self.doc.between(self.widget.limits());
        let begin = stretch.begin;
        distances_of(self.alloc, store, begin + start, begin + end, measures)
    }

    /// The line of the whole text that the widget shows first; none without a limit there (`cget
    /// -startline`).
    pub fn start_number(&self) -> Option<usize>
        ensures { result ≡ start_number self.now.doc.cells self.now.own.limits }
    {
        self.doc.start_number(self.widget.limits())
    }

    /// The line of the whole text behind the last one that the widget shows; none without a limit there
    /// (`cget -endline`).
    pub fn end_number(&self) -> Option<usize>
        ensures { result ≡ end_number self.now.doc.cells self.now.own.limits }
    {
        self.doc.end_number(self.widget.limits())
    }
}
