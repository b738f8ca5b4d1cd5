// Which tags are listed, and which characters are selected.
ghost use Rattle.std.specs.Prelude.{◌≡◌, ◌<◌, ◌≤◌, [], All, Ok, Err, IsOkUnless, OnOk, OnErr, true, false, length, if◌then◌else◌};
ghost use Rattle.rt_stamps.specs.Words.{as_words};
ghost use Rattle.rt_store.specs.Cells.{visible_of};
ghost use Rattle.rt_tags.specs.Tags.{AlsoReady, IsName, SameReady, all_forgotten, is_ready, with_name};
ghost use Rattle.rt_plans.specs.Removals.{RangesFollow, is_covered, stamps_at};
ghost use Rattle.rt_plans.specs.Selected.{selected_stamps};
ghost use Rattle.rt_plans.specs.Selections.{selection_with};

use crate::Range;
use crate::selection::Selection;
use crate::span::stamps_in;
use rt_stamps::Fault;
use rt_store::TextStore;
use rt_tags::TagTable;
use std::alloc::Global;

/// Selects the characters in ranges, or takes them out of a selection. Want of memory, and then
/// nothing changes; where nothing is selected, to take out characters takes no memory and looks at none.
pub fn select<S: TextStore>(
    alloc: Global,
    store: &S,
    selection: &mut Selection,
    ranges: &[Range],
    on: bool,
) -> Result<(), Fault>
    requires order { RangesFollow 0 ranges.now }
    requires within { All (λ range. range.to ≤ length (visible_of (S.list store.now))) ranges.now }
    ensures ok { OnOk result (selected_stamps selection.new
        ≡ selection_with on (stamps_at (is_covered ranges.now) 0 (S.list store.now)) (selected_stamps selection.old)) }
    ensures unchanged { OnErr result (selected_stamps selection.new ≡ selected_stamps selection.old) }
    ensures err { IsOkUnless result Fault.NoMemory }
    ensures idle { on ≡ false → selected_stamps selection.old ≡ [] → result ≡ Ok tt }
{
    if !on && selection.is_empty() {
        return Ok(());
    }
    let stamps = stamps_in(alloc, store, ranges)?;
    if on {
        selection.reserve(stamps.len())?;
        selection.add(&stamps);
    } else {
        selection.remove(&Selection::of(alloc, &stamps)?);
    }
    Ok(())
}

/// Prepares a tag that is put on: to list it takes no memory. It lists nothing. Want of memory, and only
/// for a name that is put on and isn't ready; then the table is as it was, as where nothing is put on.
pub fn prepare_if(tags: &mut TagTable, on: bool, name: &str) -> Result<(), Fault>
    requires { IsName name.now }
    ensures names { tags.new.names ≡ tags.old.names }
    ensures ready { OnOk result (on ≡ true → is_ready name.now tags.new ≡ true) }
    ensures also { OnOk result (on ≡ true → AlsoReady name.now tags.old tags.new) }
    ensures off { on ≡ false → tags.new ≡ tags.old }
    ensures err { IsOkUnless result Fault.NoMemory }
    ensures memory { result ≡ Err Fault.NoMemory → (on ≡ true) × (is_ready name.now tags.old ≡ false) }
    ensures unchanged { OnErr result (tags.new ≡ tags.old) }
{
    if on {
        tags.prepare(name)?;
    }
    Ok(())
}

/// Lists a tag that is put on, which was prepared. It takes no memory, and the same names are ready. Where
/// nothing is put on the table is as it was.
pub fn list_if(tags: &mut TagTable, on: bool, name: &str)
    requires name { IsName name.now }
    requires ready { on ≡ true → is_ready name.now tags.old ≡ true }
    ensures names { tags.new.names ≡ (if on then with_name name.now tags.old.names else tags.old.names) }
    ensures still_ready { SameReady tags.old tags.new }
    ensures off { on ≡ false → tags.new ≡ tags.old }
{
    if on {
        tags.ensure(name).unwrap();
    }
}

/// Forgets names, at once, which stay ready. It takes no memory.
pub fn forget_all(tags: &mut TagTable, names: &[String])
    ensures names { tags.new.names ≡ all_forgotten (as_words names.now) tags.old.names }
    ensures ready { SameReady tags.old tags.new }
{
    tags.forget_all(names);
}
