// The limits of what a widget shows.
ghost use Rattle.std.specs.Prelude.{◌≡◌, Ok, Err, IfErr, OnErr, OnOk};
ghost use Rattle.rt_stamps.specs.Outcomes.{Refuses};
ghost use Rattle.rt_text.specs.Limited.{view_limited, with_peer};

use super::View;
use crate::Widget;
use rt_lines::Choice;
use rt_stamps::Fault;
use rt_store::TextStore;

impl<S: TextStore> View<S> {
    /// Sets which lines the widget shows, by lines of the whole text (Tk text manual, "Peer widgets":
    /// `configure` with `-startline` and `-endline`): from the first one named up to before the other. A limit
    /// that isn't named keeps its newline. `BadView` where there are no such lines, and then nothing changes. It
    /// takes no memory.
    pub fn set_lines(&mut self, start: Choice, end: Choice) -> Result<(), Fault>
        ensures ok { OnOk result (view_limited self.old start end ≡ Ok self.new) }
        ensures err { IfErr result (λ fault. view_limited self.old start end ≡ Err fault) }
        ensures unchanged { OnErr result (self.new ≡ self.old) }
    {
        // For its clauses alone.
        let _ = self.doc.kept();
        let limits = self.doc.limits_chosen(self.widget.limits(), start, end)?;
        self.widget.set_limits(limits);
        Ok(())
    }

    /// Adds a new widget behind the others (Tk text manual, "Peer widgets"), which shows the lines that are asked for, and
    /// else those that this widget shows. Its marks stand at the first place that it shows. `BadView` where
    /// there are no such lines, or want of memory, and then nothing changes.
    pub fn add_peer(&mut self, start: Choice, end: Choice) -> Result<(), Fault>
        ensures ok { OnOk result (with_peer self.old start end ≡ Ok self.new) }
        ensures err { IfErr result (Refuses (with_peer self.old start end)) }
        ensures unchanged { OnErr result (self.new ≡ self.old) }
    {
        // For its clauses alone.
        let _ = self.doc.kept();
        let limits = self.doc.limits_chosen(self.widget.limits(), start, end)?;
        let begin = self.doc.stretch(limits).begin;
        Ok(self.others.push(Widget::at(self.alloc, begin, limits))?)
    }
}
