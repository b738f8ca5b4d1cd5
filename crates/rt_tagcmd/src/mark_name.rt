// The names of marks.
ghost use Rattle.std.specs.Prelude.{◌≡◌, ◌≤◌, IfOk, IsOkUnless, OnOk, OnErr, length, string_bytes};
ghost use Rattle.std.specs.List.{prefix_len};
ghost use Rattle.std.specs.Ordering.{is_lt};
ghost use Rattle.rt_stamps.specs.Words.{as_words};
ghost use Rattle.rt_marks.specs.Marks.{name_order};
ghost use Rattle.rt_tagcmd.specs.MarkCommands.{mark_names, inserted_by_bytes};

use rt_stamps::Fault;
use rt_store::TextStore;
use rt_text::{OwnMark, ViewRef};
use std::alloc::Global;

/// Whether a name comes before another by their bytes.
fn is_below(x: &String, name: &str) -> bool
    ensures { result ≡ is_lt (name_order (string_bytes x.now) name.now) }
{
    x.as_str().cmp(name).is_lt()
}

/// How many names at the front come before a name by their bytes.
fn count_below(names: &[String], name: &str) -> usize
    ensures value { result ≡ prefix_len (λ x. is_lt (name_order (string_bytes x) name.now)) names.now }
    ensures within { result ≤ length names.now }
{
    names.iter().take_while(|x| is_below(x, name)).count()
}

/// Puts a name among names that ascend by their bytes.
fn add_name(alloc: Global, names: &mut Vec<String>, name: &str) -> Result<(), Fault>
    ensures ok { OnOk result (as_words names.new.items ≡ inserted_by_bytes name.now (as_words names.old.items)) }
    ensures fault { IsOkUnless result Fault.NoMemory }
{
    let added = String::from_str(alloc, name)?;
    let at = count_below(names, name);
    names.insert(at, added)?;
    Ok(())
}

/// `mark names` (Tk text manual): the names of all marks of a widget by their bytes, `insert` and
/// `current` and those outside of what it shows among them. `NoMemory` is its only fault.
pub fn mark_names<S: TextStore>(alloc: Global, view: &ViewRef<'_, S>) -> Result<Vec<String>, Fault>
    ensures ok { IfOk result (λ names. as_words names.items ≡ mark_names view.now) }
    ensures fault { IsOkUnless result Fault.NoMemory }
{
    let marks = view.doc().marks();
    marks.order();
    let mut names = marks.names()?;
    add_name(alloc, &mut names, OwnMark::Current.name())?;
    add_name(alloc, &mut names, OwnMark::Insert.name())?;
    Ok(names)
}
