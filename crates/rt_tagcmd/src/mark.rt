// Marks are set and unset, and their gravity.
ghost use Rattle.std.specs.Prelude.{◌≡◌, Ok, Err, IfErr, OnOk, OnErr};
ghost use Rattle.rt_stamps.specs.Outcomes.{Refuses};
ghost use Rattle.rt_stamps.specs.Words.{as_words};
ghost use Rattle.rt_tagcmd.specs.MarkCommands.{mark_set, mark_unset, mark_gravity, mark_gravity_set};

use crate::seen::{named, order};
use rt_marks::Gravity;
use rt_stamps::{Fault, check_name, check_names};
use rt_store::TextStore;
use rt_text::{OwnMark, View, ViewRef};

/// `mark set NAME INDEX` (Tk text manual): sets a mark at the place of the index. A mark that is there
/// keeps its gravity, and a new one has right gravity; `insert` stands at most before the last
/// newline. `BadName`, `BadIndex`, `NoneTagged`, or want of memory, and then nothing changes. It takes memory for a new
/// name, and for an index of more than four modifiers.
pub fn mark_set<S: TextStore>(view: &mut View<S>, name: &str, index: &str) -> Result<(), Fault>
    ensures ok { OnOk result (mark_set view.old name.now index.now ≡ Ok view.new) }
    ensures err { IfErr result (Refuses (mark_set view.old name.now index.now)) }
    ensures unchanged { OnErr result (view.new ≡ view.old) }
{
    check_name(name)?;
    let place = view.place(index)?;
    match OwnMark::of(name) {
        Some(which) => {
            view.set_own(which, place);
            Ok(())
        }
        None => view.set_mark(name, place),
    }
}

/// `mark unset NAME ?NAME ...?` (Tk text manual): takes marks of the site away. Names without a mark
/// are passed over, and so are `insert` and `current`. `BadName`, and then nothing changes. It takes
/// no memory.
pub fn mark_unset<S: TextStore>(view: &mut View<S>, names: &[String]) -> Result<(), Fault>
    ensures ok { OnOk result (mark_unset view.old (as_words names.now) ≡ Ok view.new) }
    ensures err { IfErr result (λ fault. mark_unset view.old (as_words names.now) ≡ Err fault) }
    ensures unchanged { OnErr result (view.new ≡ view.old) }
{
    check_names(names)?;
    view.unset_marks(names);
    Ok(())
}

/// `mark gravity NAME` (Tk text manual): the gravity of a mark. `BadName` or `NoMark`. It takes no
/// memory.
pub fn mark_gravity<S: TextStore>(view: &ViewRef<'_, S>, name: &str) -> Result<Gravity, Fault>
    ensures { result ≡ mark_gravity view.now name.now }
{
    check_name(name)?;
    order(view);
    match OwnMark::of(name) {
        Some(which) => Ok(view.widget().gravity(which)),
        None => view.doc().marks().gravity(name).ok_or(Fault::NoMark),
    }
}

/// `mark gravity NAME GRAVITY` (Tk text manual): gives a mark a gravity.
/// `BadName` or `NoMark`, and then nothing changes. It takes no memory.
pub fn set_mark_gravity<S: TextStore>(
    view: &mut View<S>,
    name: &str,
    gravity: Gravity,
) -> Result<(), Fault>
    ensures ok { OnOk result (mark_gravity_set view.old name.now gravity ≡ Ok view.new) }
    ensures err { IfErr result (λ fault. mark_gravity_set view.old name.now gravity ≡ Err fault) }
    ensures unchanged { OnErr result (view.new ≡ view.old) }
{
    check_name(name)?;
    named(view);
    match OwnMark::of(name) {
        Some(which) => {
            view.set_own_gravity(which, gravity);
            Ok(())
        }
        None => view.set_mark_gravity(name, gravity),
    }
}
