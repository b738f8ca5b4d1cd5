// The lines of a document between limits.
ghost use Rattle.std.specs.Prelude.{◌≡◌, ◌≤◌, ◌<◌, length};
ghost use Rattle.rt_store.specs.Cells.{text_of};
ghost use Rattle.rt_lines.specs.Choices.{limits_chosen};
ghost use Rattle.rt_lines.specs.Limits.{end_number, start_number};
ghost use Rattle.rt_lines.specs.Stretches.{stretch_of};

use super::Doc;
use rt_lines::{Choice, Limits, Stretch};
use rt_stamps::Fault;
use rt_store::TextStore;

impl<S: TextStore> Doc<S> {
    // The places between limits.
    pub(crate) fn stretch(&self, limits: Limits) -> Stretch
        ensures value { result ≡ stretch_of self.now.cells limits }
        ensures some { result.begin < result.end }
        ensures within { result.end ≤ length (text_of self.now.cells) }
    {
        let (store, _) = self.kept();
        limits.stretch(store)
    }

    // Limits with those that a command asks for.
    pub(crate) fn limits_chosen(
        &self,
        limits: Limits,
        start: Choice,
        end: Choice,
    ) -> Result<Limits, Fault>
        ensures { result ≡ limits_chosen self.now.cells start end limits }
    {
        let (store, _) = self.kept();
        limits.with_lines(store, start, end)
    }

    // The number of the first line between limits, if there is one at the start.
    pub(crate) fn start_number(&self, limits: Limits) -> Option<usize>
        ensures { result ≡ start_number self.now.cells limits }
    {
        let (store, _) = self.kept();
        limits.start_number(store)
    }

    // The number of the line behind the last one between limits, if there is one at the end.
    pub(crate) fn end_number(&self, limits: Limits) -> Option<usize>
        ensures { result ≡ end_number self.now.cells limits }
    {
        let (store, _) = self.kept();
        limits.end_number(store)
    }
}
