// Replacements.
ghost use Rattle.std.specs.Prelude.{◌≡◌, None, Ok, Some, IfErr, IfOk, OnOk, OnErr};
ghost use Rattle.rt_stamps.specs.Outcomes.{Refuses};
ghost use Rattle.rt_text.specs.Commands.{backwards_check, view_replaced};

use super::View;
use crate::preparing::check_names;
use rt_plans::{Piece, Range};
use rt_stamps::Fault;
use rt_store::TextStore;

// The range from one place up to before another, or why it is none.
fn forward(from: usize, to: usize) -> Result<Range, Fault>
    ensures ok { IfOk result (λ range. range ≡ record { from = from; to = to }) }
    ensures checked { OnOk result (backwards_check (record { from = from; to = to }) ≡ None) }
    ensures err { IfErr result (λ fault. backwards_check (record { from = from; to = to }) ≡ Some fault) }
{
    if to < from {
        return Err(Fault::BackwardsRange);
    }
    Ok(Range { from, to })
}

impl<S: TextStore> View<S> {
    /// `replace INDEX INDEX CHARS ?TAGLIST CHARS TAGLIST ...?` (Tk text manual): the delete of the range
    /// from the first index up to before the second, followed by the insert of pieces of text, each
    /// with its list of tags, and then of characters without a list, at the place of the first index
    /// and before the last newline. Both are made as a whole or not at all: so characters without a list
    /// get the tags that both neighbours have once the range is gone, and counts and cells are asked of
    /// both together. `BadName`, `BadIndex`, `NoneTagged`, `BackwardsRange` where the second index comes
    /// before the first, `ClockSpent`, `TextFull`, or want of memory, and then nothing changes. It takes
    /// the counts of the deletion, and then those of the insertion.
    pub fn replace(
        &mut self,
        from: &str,
        to: &str,
        pieces: &[Piece],
        rest: &str,
    ) -> Result<(), Fault>
        ensures ok { OnOk result (view_replaced self.old from.now to.now pieces.now rest.now ≡ Ok self.new) }
        ensures err { IfErr result (Refuses (view_replaced self.old from.now to.now pieces.now rest.now)) }
        ensures unchanged { OnErr result (self.new ≡ self.old) }
    {
        check_names(pieces)?;
        let begin = self.place(from)?;
        let end = self.place(to)?;
        let range = forward(begin, end)?;
        // For its clauses alone.
        let _ = self.doc.kept();
        let done = self
            .doc
            .replace_in(&mut self.widget, &mut self.others, range, pieces, rest);
        // For its clauses alone.
        let _ = self.doc.log();
        done
    }
}
