// Undo and redo.
ghost use Rattle.std.specs.Prelude.{◌≡◌, ◌∷◌, [], Ok, IfErr, OnErr, OnOk};
ghost use Rattle.rt_stamps.specs.Outcomes.{Refuses};
ghost use Rattle.rt_store.specs.Cells.{final_cell};
ghost use Rattle.rt_recording.specs.Settled.{IsSettled};
ghost use Rattle.rt_recording.specs.EditedValue.{edited};
ghost use Rattle.rt_recording.specs.Reverts.{text_redone, text_undone};

use crate::Recorder;
use rt_stamps::Fault;
use rt_store::TextStore;
use rt_text::View;

/// `edit undo` (Tk text manual): reverts the last group of the undo stack, and moves it to the redo stack;
/// nothing where edits aren't recorded. The group is reverted in a copy of the cells that it names first, for which
/// an empty store is given. `NothingToUndo`, `ClockSpent`, `TextFull`, or want of memory, as also where this store
/// would have more than the most cells, and then all is as it was.
pub fn undo<S: TextStore, C: TextStore>(
    view: &mut View<S>,
    recorder: &mut Recorder,
    copy: C,
) -> Result<(), Fault>
    requires empty { C.list copy ≡ final_cell ∷ [] }
    requires settled { IsSettled view.old recorder.old }
    ensures ok { OnOk result (text_undone (edited view.old recorder.old) ≡ Ok (edited view.new recorder.new)) }
    ensures err { IfErr result (Refuses (text_undone (edited view.old recorder.old))) }
    ensures unchanged { OnErr result (edited view.new recorder.new ≡ edited view.old recorder.old) }
    ensures settled { IsSettled view.new recorder.new }
{
    if !recorder.is_undo_on() {
        return Ok(());
    }
    recorder.undo(view, copy)
}

/// `edit redo` (Tk text manual): reverts the group that was undone last, and moves it back to the undo
/// stack, closed; nothing where edits aren't recorded. `NothingToRedo`, `ClockSpent`, `TextFull`, or want
/// of memory, as also where the copy would have more than the most cells, and then all is as it was.
pub fn redo<S: TextStore, C: TextStore>(
    view: &mut View<S>,
    recorder: &mut Recorder,
    copy: C,
) -> Result<(), Fault>
    requires empty { C.list copy ≡ final_cell ∷ [] }
    requires settled { IsSettled view.old recorder.old }
    ensures ok { OnOk result (text_redone (edited view.old recorder.old) ≡ Ok (edited view.new recorder.new)) }
    ensures err { IfErr result (Refuses (text_redone (edited view.old recorder.old))) }
    ensures unchanged { OnErr result (edited view.new recorder.new ≡ edited view.old recorder.old) }
    ensures settled { IsSettled view.new recorder.new }
{
    if !recorder.is_undo_on() {
        return Ok(());
    }
    recorder.redo(view, copy)
}
