// Edits of the text, with what is recorded of them.
ghost use Rattle.std.specs.Prelude.{map};
ghost use Rattle.rt_stamps.specs.Outcomes.{Answers};
ghost use Rattle.rt_requests.specs.Parts.{all_of};
ghost use Rattle.rt_recording.specs.Edits.{text_deleted, text_inserted, text_replaced};
ghost use Rattle.rt_peers.specs.ViewStep.{as_piece, changed_step};

use super::EditedText;
use crate::pieces::owned;
use crate::replies::changed;
use crate::reply::Reply;
use rt_requests::{Texts, Word, Words};
use rt_stamps::Fault;

impl EditedText {
    // Texts with their tags, and a text without a list, before the character at an index.
    pub(super) fn insert(&mut self, index: &Word<'_>, texts: &Texts<'_>) -> Result<Reply, Fault>
        ensures { Answers (changed_step (text_inserted self.old index.now (map as_piece texts.now.pieces) texts.now.rest))
            self.old result self.new }
    {
        // Without lists of tags, as typing has it, no list of texts is made.
        if texts.pieces().is_empty() {
            let view = &mut self.view;
            let recorder = &mut self.recorder;
            let plain = rt_recording::insert(view, recorder, index.text(), &[], texts.rest());
            return changed(self.alloc, plain);
        }
        self.insert_pieces(index, texts)
    }

    // As `insert`, where a list of texts is made.
    #[inline(never)]
    fn insert_pieces(&mut self, index: &Word<'_>, texts: &Texts<'_>) -> Result<Reply, Fault>
        ensures { Answers (changed_step (text_inserted self.old index.now (map as_piece texts.now.pieces) texts.now.rest))
            self.old result self.new }
    {
        let pieces = owned(self.alloc, texts.pieces())?;
        let view = &mut self.view;
        let recorder = &mut self.recorder;
        let inserted = rt_recording::insert(view, recorder, index.text(), &pieces, texts.rest());
        changed(self.alloc, inserted)
    }

    // Texts with their tags, and a text without a list, in the place of the characters from one index up
    // to before another.
    pub(super) fn replace(
        &mut self,
        from: &Word<'_>,
        to: &Word<'_>,
        texts: &Texts<'_>,
    ) -> Result<Reply, Fault>
        ensures { Answers (changed_step (text_replaced self.old from.now to.now (map as_piece texts.now.pieces) texts.now.rest))
            self.old result self.new }
    {
        let pieces = owned(self.alloc, texts.pieces())?;
        let view = &mut self.view;
        let recorder = &mut self.recorder;
        let replaced = rt_recording::replace(
            view,
            recorder,
            from.text(),
            to.text(),
            &pieces,
            texts.rest(),
        );
        changed(self.alloc, replaced)
    }

    // Without the characters in the ranges of some indices.
    pub(super) fn delete(&mut self, indices: &Words<'_>) -> Result<Reply, Fault>
        ensures { Answers (changed_step (text_deleted self.old (all_of indices.now))) self.old result self.new }
    {
        let deleted = rt_recording::delete(&mut self.view, &mut self.recorder, indices.all());
        changed(self.alloc, deleted)
    }
}
