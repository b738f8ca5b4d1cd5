// The marks of a stretch.
ghost use Rattle.std.specs.Prelude.{◌≡◌, ◌++◌, IsOkUnless, OnOk};
ghost use Rattle.rt_tagcmd.specs.Dumping.{marks_standing};
ghost use Rattle.rt_tagcmd.specs.Stretches.{within};

use crate::Key;
use crate::mark_list::marks_between;
use crate::placed::Placed;
use crate::stretch::DumpStretch;
use rt_stamps::Fault;
use rt_store::TextStore;
use rt_text::ViewRef;
use std::alloc::Global;

/// Puts the marks of a stretch behind other elements, in their order. `NoMemory` is its only fault.
pub(crate) fn push_marks<S: TextStore>(
    alloc: Global,
    view: &ViewRef<'_, S>,
    stretch: DumpStretch,
    elements: &mut Vec<Placed>,
) -> Result<(), Fault>
    ensures ok { OnOk result (elements.new.items ≡ elements.old.items ++ within stretch (marks_standing view.now)) }
    ensures err { IsOkUnless result Fault.NoMemory }
{
    let marks = marks_between(alloc, view, stretch.from, stretch.behind)?;
    for mark in &marks {
        let name = String::from_str(alloc, mark.name)?;
        elements.push(Placed::new(Key::Mark, name, mark.place))?;
    }
    Ok(())
}
