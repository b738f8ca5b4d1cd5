// Tags are put on characters and taken off, listed and ordered.
ghost use Rattle.std.specs.Prelude.{◌≡◌, Ok, Err, IfOk, IfErr, IsOkUnless, OnOk, OnErr, option_copied};
ghost use Rattle.rt_stamps.specs.Outcomes.{Refuses};
ghost use Rattle.rt_stamps.specs.Words.{as_words};
ghost use Rattle.rt_tagcmd.specs.TagCommands.{tag_added, tag_lowered, tag_names, tag_names_at, tag_raised, tag_removed, tag_written, tags_deleted};

use crate::name::check_both;
use rt_stamps::{Fault, check_name, check_names};
use rt_store::TextStore;
use rt_text::{View, ViewRef};
use std::alloc::Global;

// Puts a tag on the characters in the ranges that indices name in pairs, or takes it off.
fn write<S: TextStore>(
    view: &mut View<S>,
    on: bool,
    name: &str,
    indices: &[String],
) -> Result<(), Fault>
    ensures ok { OnOk result (tag_written on view.old name.now (as_words indices.now) ≡ Ok view.new) }
    ensures err { IfErr result (Refuses (tag_written on view.old name.now (as_words indices.now))) }
    ensures unchanged { OnErr result (view.new ≡ view.old) }
{
    check_name(name)?;
    let ranges = view.ranges(indices)?;
    view.write_tag(on, name, &ranges)
}

/// `tag add NAME INDEX ?INDEX ...?` (Tk text manual): puts a tag on the characters in the ranges
/// that the indices name in pairs; a last index without another is one character. `sel` goes to the
/// widget alone, another tag to the text. A tag that isn't listed yet is listed then, with the
/// highest priority, also where no character gets it. `BadName`, `BadIndex`, `NoneTagged`,
/// `ClockSpent`, or want of memory, and then nothing changes. It takes one count for each 65,536
/// spans of stamps that it changes or a part of them; `sel` takes none.
pub fn tag_add<S: TextStore>(
    view: &mut View<S>,
    name: &str,
    indices: &[String],
) -> Result<(), Fault>
    ensures ok { OnOk result (tag_added view.old name.now (as_words indices.now) ≡ Ok view.new) }
    ensures err { IfErr result (Refuses (tag_added view.old name.now (as_words indices.now))) }
    ensures unchanged { OnErr result (view.new ≡ view.old) }
{
    write(view, true, name, indices)
}

/// `tag remove NAME INDEX ?INDEX ...?` (Tk text manual): takes a tag off the characters in the
/// ranges that the indices name in pairs; a last index without another is one character. It lists
/// nothing, and a tag that is listed stays so. `BadName`, `BadIndex`, `NoneTagged`, `ClockSpent`, or
/// want of memory, and then nothing changes. It takes counts as `tag add` does.
pub fn tag_remove<S: TextStore>(
    view: &mut View<S>,
    name: &str,
    indices: &[String],
) -> Result<(), Fault>
    ensures ok { OnOk result (tag_removed view.old name.now (as_words indices.now) ≡ Ok view.new) }
    ensures err { IfErr result (Refuses (tag_removed view.old name.now (as_words indices.now))) }
    ensures unchanged { OnErr result (view.new ≡ view.old) }
{
    write(view, false, name, indices)
}

/// `tag delete NAME ?NAME ...?` (Tk text manual): takes tags off all characters of the whole text, whichever
/// lines the widget shows, and lists them no longer. Names that aren't listed are passed over, and so is `sel`. `BadName`, `ClockSpent`, or
/// want of memory, and then nothing changes. It takes one count for each 65,536 spans of stamps of
/// each tag or a part of them.
pub fn tag_delete<S: TextStore>(view: &mut View<S>, names: &[String]) -> Result<(), Fault>
    ensures ok { OnOk result (tags_deleted view.old (as_words names.now) ≡ Ok view.new) }
    ensures err { IfErr result (Refuses (tags_deleted view.old (as_words names.now))) }
    ensures unchanged { OnErr result (view.new ≡ view.old) }
{
    check_names(names)?;
    view.delete_tags(names)
}

/// `tag raise NAME ?ABOVE?` (Tk text manual): raises a tag just above another, or above all. Just
/// above itself it stays where it is. `BadName` or `NoTag`, and then nothing changes. It takes no
/// memory.
pub fn tag_raise<S: TextStore>(
    view: &mut View<S>,
    name: &str,
    above: Option<&str>,
) -> Result<(), Fault>
    ensures ok { OnOk result (tag_raised view.old name.now (option_copied above.entry) ≡ Ok view.new) }
    ensures err { IfErr result (λ fault. tag_raised view.old name.now (option_copied above.entry) ≡ Err fault) }
    ensures unchanged { OnErr result (view.new ≡ view.old) }
{
    check_both(name, above)?;
    view.raise_tag(name, above)
}

/// `tag lower NAME ?BELOW?` (Tk text manual): lowers a tag just below another, or below all. Just
/// below itself it stays where it is. `BadName` or `NoTag`, and then nothing changes. It takes no
/// memory.
pub fn tag_lower<S: TextStore>(
    view: &mut View<S>,
    name: &str,
    below: Option<&str>,
) -> Result<(), Fault>
    ensures ok { OnOk result (tag_lowered view.old name.now (option_copied below.entry) ≡ Ok view.new) }
    ensures err { IfErr result (λ fault. tag_lowered view.old name.now (option_copied below.entry) ≡ Err fault) }
    ensures unchanged { OnErr result (view.new ≡ view.old) }
{
    check_both(name, below)?;
    view.lower_tag(name, below)
}

/// `tag names` (Tk text manual): the listed tags, lowest priority first. `NoMemory` is its only
/// fault.
pub fn tag_names<S: TextStore>(view: &ViewRef<'_, S>) -> Result<Vec<String>, Fault>
    ensures ok { IfOk result (λ names. as_words names.items ≡ tag_names view.now) }
    ensures err { IsOkUnless result Fault.NoMemory }
{
    view.doc().tags().names()
}

/// `tag names INDEX` (Tk text manual): the tags of the character at the index, lowest priority
/// first, and none at the text's end. `BadIndex`, `NoneTagged`, or want of memory.
pub fn tag_names_at<S: TextStore>(
    alloc: Global,
    view: &ViewRef<'_, S>,
    index: &str,
) -> Result<Vec<String>, Fault>
    ensures ok { IfOk result (λ names. tag_names_at view.now index.now ≡ Ok (as_words names.items)) }
    ensures err { IfErr result (Refuses (tag_names_at view.now index.now)) }
{
    let place = view.place(index)?;
    if place == view.visible() {
        return Ok(Vec::new(alloc));
    }
    view.tags_at(place)
}
