// Insertions, removals, replacements, and operations of other sites.
ghost use Rattle.std.specs.Prelude.{◌≡◌, Ok, IfErr, IfOk, OnErr, OnOk};
ghost use Rattle.rt_stamps.specs.Outcomes.{Refuses};
ghost use Rattle.rt_stamps.specs.Words.{as_words};
ghost use Rattle.rt_rga.specs.Answers.{New};
ghost use Rattle.rt_rga.specs.Taken.{IsChange};
ghost use Rattle.rt_recording.specs.Settled.{IsSettled};
ghost use Rattle.rt_text.specs.Accepted.{answer_of};
ghost use Rattle.rt_recording.specs.EditedValue.{edited};
ghost use Rattle.rt_recording.specs.Edits.{text_deleted, text_inserted, text_replaced, text_with_new};

use crate::Recorder;
use crate::before::Before;
use crate::noting::{note, prepare_deletion, prepare_insertion, prepare_replacement};
use rt_oplog::Op;
use rt_plans::Piece;
use rt_rga::Change;
use rt_stamps::Fault;
use rt_store::TextStore;
use rt_text::View;
use rt_undo::Kind;

/// `insert INDEX CHARS ?TAGLIST CHARS TAGLIST ...?` (Tk text manual), as `View::insert` does it, with the
/// action that it is for undo. Its faults, and then all is as it was.
#[inline(always)]
pub fn insert<S: TextStore>(
    view: &mut View<S>,
    recorder: &mut Recorder,
    index: &str,
    pieces: &[Piece],
    rest: &str,
) -> Result<(), Fault>
    requires { IsSettled view.old recorder.old }
    ensures ok { OnOk result (text_inserted (edited view.old recorder.old) index.now pieces.now rest.now ≡ Ok (edited view.new recorder.new)) }
    ensures err { IfErr result (Refuses (text_inserted (edited view.old recorder.old) index.now pieces.now rest.now)) }
    ensures unchanged { OnErr result (edited view.new recorder.new ≡ edited view.old recorder.old) }
    ensures settled { IsSettled view.new recorder.new }
{
    let before = Before::of(view);
    prepare_insertion(view, recorder)?;
    view.insert(index, pieces, rest)?;
    note(view, recorder, Kind::Insert, before);
    Ok(())
}

/// `delete INDEX ?INDEX ...?` (Tk text manual), as `View::delete` does it, with the action that it is for
/// undo. Its faults, and then all is as it was.
pub fn delete<S: TextStore>(
    view: &mut View<S>,
    recorder: &mut Recorder,
    indices: &[String],
) -> Result<(), Fault>
    requires { IsSettled view.old recorder.old }
    ensures ok { OnOk result (text_deleted (edited view.old recorder.old) (as_words indices.now) ≡ Ok (edited view.new recorder.new)) }
    ensures err { IfErr result (Refuses (text_deleted (edited view.old recorder.old) (as_words indices.now))) }
    ensures unchanged { OnErr result (edited view.new recorder.new ≡ edited view.old recorder.old) }
    ensures settled { IsSettled view.new recorder.new }
{
    let before = Before::of(view);
    prepare_deletion(view, recorder, indices)?;
    view.delete(indices)?;
    note(view, recorder, Kind::Delete, before);
    Ok(())
}

/// `replace INDEX INDEX CHARS ?TAGLIST CHARS TAGLIST ...?` (Tk text manual), as `View::replace` does it:
/// one action for undo. Its faults, and then all is as it was.
pub fn replace<S: TextStore>(
    view: &mut View<S>,
    recorder: &mut Recorder,
    from: &str,
    to: &str,
    pieces: &[Piece],
    rest: &str,
) -> Result<(), Fault>
    requires { IsSettled view.old recorder.old }
    ensures ok { OnOk result (text_replaced (edited view.old recorder.old) from.now to.now pieces.now rest.now ≡ Ok (edited view.new recorder.new)) }
    ensures err { IfErr result (Refuses (text_replaced (edited view.old recorder.old) from.now to.now pieces.now rest.now)) }
    ensures unchanged { OnErr result (edited view.new recorder.new ≡ edited view.old recorder.old) }
    ensures settled { IsSettled view.new recorder.new }
{
    let before = Before::of(view);
    prepare_replacement(view, recorder, from, to)?;
    view.replace(from, to, pieces, rest)?;
    note(view, recorder, Kind::Replace, before);
    Ok(())
}

/// Takes an operation that is new, as `View::take` does: it is never recorded, and forces the modified flag where
/// it changes the visible text. It tells what changed in the text. Where memory is wanting the operation is given
/// back, and all is as it was.
pub fn take<S: TextStore>(view: &mut View<S>, recorder: &mut Recorder, op: Op) -> Result<Change, Op>
    requires settled { IsSettled view.old recorder.old }
    requires new { answer_of view.old.doc op ≡ New }
    ensures taken { OnOk result (edited view.new recorder.new ≡ text_with_new op (edited view.old recorder.old)) }
    ensures change { IfOk result (IsChange op view.old.doc.cells) }
    ensures unchanged { OnErr result (edited view.new recorder.new ≡ edited view.old recorder.old) }
    ensures back { IfErr result (λ back. back ≡ op) }
    ensures settled { IsSettled view.new recorder.new }
{
    let before = Before::of(view);
    match view.take(op) {
        Err(op) => Err(op),
        Ok(change) => {
            if before.has_changed(view) {
                recorder.force();
            }
            Ok(change)
        }
    }
}
