// Insertions and removals.
ghost use Rattle.std.specs.Prelude.{◌≡◌, Ok, IfErr, OnOk, OnErr};
ghost use Rattle.rt_stamps.specs.Outcomes.{Refuses};
ghost use Rattle.rt_stamps.specs.Words.{as_words};
ghost use Rattle.rt_text.specs.Commands.{view_inserted, view_deleted};

use super::View;
use crate::new_text::NewText;
use crate::preparing::check_names;
use rt_plans::Piece;
use rt_stamps::Fault;
use rt_store::TextStore;

impl<S: TextStore> View<S> {
    /// `insert INDEX CHARS ?TAGLIST CHARS TAGLIST ...?` (Tk text manual): puts pieces of text, each
    /// with its list of tags, and then characters without a list, before the one at the index, and at
    /// the text's end before the last newline, and moves all marks for them. A list gives exactly its
    /// tags, `sel` to the widget alone. Characters without a list get the tags that both neighbours
    /// have, and in each widget they are selected where both neighbours are. `BadName`, `BadIndex`,
    /// `NoneTagged`, `ClockSpent`, `TextFull`, or want of memory, and then nothing changes. It takes one
    /// count for each character and one for each tag that an Insert of at most 65,535 characters can't
    /// list, above 255.
    #[inline(always)]
    pub fn insert(&mut self, index: &str, pieces: &[Piece], rest: &str) -> Result<(), Fault>
        ensures ok { OnOk result (view_inserted self.old index.now pieces.now rest.now ≡ Ok self.new) }
        ensures err { IfErr result (Refuses (view_inserted self.old index.now pieces.now rest.now)) }
        ensures unchanged { OnErr result (self.new ≡ self.old) }
    {
        check_names(pieces)?;
        let (place, stretch) = self.place_within(index)?;
        let place = place.min(stretch.end - stretch.begin - 1);
        // For its clauses alone.
        let _ = self.doc.kept();
        self.doc.focus(stretch.begin + place);
        let text = NewText {
            stretch,
            place,
            pieces,
            rest,
        };
        let done = self.doc.insert_at(&mut self.widget, &mut self.others, text);
        // For its clauses alone.
        let _ = self.doc.log();
        done
    }

    /// `delete INDEX ?INDEX ...?` (Tk text manual): removes the characters in the ranges that the
    /// indices name in pairs, and moves all marks for that: a mark within a range comes to stand
    /// where the range was. All indices are read before the first change, a last index without
    /// another is one character. The last newline that the widget shows stays; where a range holds it, it
    /// loses its tags, and `sel` in every widget. Where all that is shown behind a newline is in the ranges,
    /// down to the end, that newline goes too. `BadIndex`, `NoneTagged`, `ClockSpent`, or want of memory, and then
    /// nothing changes. It takes one count for each 65,536 spans of removed stamps or a part of them,
    /// none where nothing is removed, and, where a range holds the last newline, one for each of its tags but
    /// `sel`.
    pub fn delete(&mut self, indices: &[String]) -> Result<(), Fault>
        ensures ok { OnOk result (view_deleted self.old (as_words indices.now) ≡ Ok self.new) }
        ensures err { IfErr result (Refuses (view_deleted self.old (as_words indices.now))) }
        ensures unchanged { OnErr result (self.new ≡ self.old) }
    {
        let ranges = self.ranges(indices)?;
        // For its clauses alone.
        let _ = self.doc.kept();
        let done = self
            .doc
            .delete_in(&mut self.widget, &mut self.others, &ranges);
        // For its clauses alone.
        let _ = self.doc.log();
        done
    }
}
