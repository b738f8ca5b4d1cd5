// What an accepted operation does to the marks of its text and to the list of tags.
ghost use Rattle.std.specs.Prelude.{ℕ, List, ◌≡◌, ◌+◌, ◌≤◌, ◌||◌, All, IsOk, IsOkUnless, OnOk, true};
ghost use Rattle.std.specs.List.{AllByRecursion};
ghost use Rattle.rt_marks.specs.Marks.{marks_inserted, marks_left};
ghost use Rattle.rt_tags.specs.Tags.{is_listed, is_ready};
ghost use Rattle.rt_ops.specs.Edits.{body_of};
ghost use Rattle.rt_ops.specs.Rules.{keeps_rules};
ghost use Rattle.rt_rga.specs.Taken.{AreFallingRuns, is_in_runs, lists_of};
ghost use Rattle.rt_text.specs.Owned.{widget_value};
ghost use Rattle.rt_text.specs.Widgets.{widget_inserted, widget_without};

use crate::Widget;
use crate::preparing::prepare_tags;
use rt_marks::Marks;
use rt_oplog::Edit;
use rt_plans::listing::prepare_if;
use rt_rga::Change;
use rt_stamps::Fault;
use rt_tags::TagTable;

/// Prepares the tags that an edit lists: to list them takes no memory. It lists nothing, names that were
/// ready stay so, and no others than those become so. Want of memory, and only where one of them isn't
/// ready.
pub(crate) fn prepare_lists(table: &mut TagTable, edit: &Edit) -> Result<(), Fault>
    requires { keeps_rules (body_of edit.now) ≡ true }
    ensures names { table.new.names ≡ table.old.names }
    ensures ready { OnOk result (All (λ name. is_ready name table.new ≡ true) (lists_of (body_of edit.now))) }
    ensures kept { (other : List ℕ) → is_ready other table.old ≡ true → is_ready other table.new ≡ true }
    ensures only { (other : List ℕ) → is_ready other table.new ≡ true
        → (is_listed other (lists_of (body_of edit.now)) || is_ready other table.old) ≡ true }
    ensures err { IsOkUnless result Fault.NoMemory }
    ensures memory { All (λ name. is_ready name table.old ≡ true) (lists_of (body_of edit.now)) → IsOk result }
{
    match edit {
        Edit::Insert {
            after: _,
            tags,
            text: _,
        } => prepare_tags(table, tags),
        Edit::Delete { spans: _ } => Ok(()),
        Edit::Tag { on, name, spans: _ } => prepare_if(table, *on, name),
    }
}

/// Moves the marks of a site for a change of the text. Characters are put in first, and then runs are
/// taken away, the last one first, so that the places of the others still count. It takes no memory.
pub(crate) fn follow(marks: &mut Marks, change: &Change)
    requires runs { (end : ℕ) × AreFallingRuns end change.now.removed.items }
    requires fits { AllByRecursion (λ m. m.place + change.now.inserted ≤ usize.MAX) marks.old }
    ensures { marks.new ≡ marks_left (is_in_runs change.now.removed.items) (marks_inserted change.now.place change.now.inserted marks.old) }
{
    marks.inserted(change.place, change.inserted);
    marks.order();
    for run in &change.removed {
        marks.removed(run.from, run.to - run.from);
    }
}

impl Widget {
    /// Moves its marks for a change of the text that an accepted operation told. The runs are those
    /// of a text before the operation, the last one first. It takes no memory.
    pub(crate) fn follow(&mut self, change: &Change)
        requires runs { (end : ℕ) × AreFallingRuns end change.now.removed.items }
        requires insert { self.old.insert.place + change.now.inserted ≤ usize.MAX }
        requires current { self.old.current.place + change.now.inserted ≤ usize.MAX }
        ensures { widget_value self.new ≡ widget_without (is_in_runs change.now.removed.items)
            (widget_inserted change.now.place change.now.inserted (widget_value self.old)) }
    {
        self.inserted(change.place, change.inserted);
        for run in &change.removed {
            self.removed(run.from, run.to - run.from);
        }
    }
}
