// What is asked of marks.
ghost use Rattle.std.specs.Prelude.{◌≡◌, option_copied, true, IfOk, IsOkUnless};
ghost use Rattle.rt_stamps.specs.Outcomes.{Answers};
ghost use Rattle.rt_marks.specs.Marks.{gravity_word};
ghost use Rattle.rt_requests.specs.Parts.{all_of};
ghost use Rattle.rt_tagcmd.specs.MarkCommands.{mark_set, mark_unset, mark_gravity, mark_gravity_set, mark_names, mark_next, mark_previous};
ghost use Rattle.rt_peers.specs.TakesNone.{IsRefusedAs, mark_takes_none};
ghost use Rattle.rt_peers.specs.ViewStep.{changed_step, mark_step, one_word, told_step, word_or_none};

use crate::replies::{changed, no_words, one_word};
use crate::reply::Reply;
use rt_marks::Gravity;
use rt_requests::{MarkRequest, Word, Words};
use rt_stamps::Fault;
use rt_tagcmd::{
    mark_gravity, mark_names, mark_next, mark_previous, mark_set, mark_unset, set_mark_gravity,
};
use rt_text::{View, ViewRef};
use rt_tree::TreeStore;
use std::alloc::Global;

// A reply of a name, where there is one.
fn name_reply(alloc: Global, name: Option<&str>) -> Result<Reply, Fault>
    ensures ok { IfOk result (λ reply. reply ≡ word_or_none (option_copied name.entry)) }
    ensures err { IsOkUnless result Fault.NoMemory }
{
    match name {
        Some(name) => one_word(alloc, String::from_str(alloc, name)?),
        None => Ok(no_words(alloc)),
    }
}

// A mark is set at an index.
fn set_mark(
    alloc: Global,
    view: &mut View<TreeStore>,
    name: &Word<'_>,
    index: &Word<'_>,
) -> Result<Reply, Fault>
    ensures { Answers (changed_step (mark_set view.old name.now index.now)) view.old result view.new }
{
    let set = mark_set(view, name.text(), index.text());
    changed(alloc, set)
}

// Takes marks away. It takes no memory.
fn unset_marks(alloc: Global, view: &mut View<TreeStore>, names: &Words<'_>) -> Result<Reply, Fault>
    ensures answers { Answers (changed_step (mark_unset view.old (all_of names.now))) view.old result view.new }
    ensures err { IsRefusedAs (changed_step (mark_unset view.old (all_of names.now))) result }
{
    let unset = mark_unset(view, names.all());
    changed(alloc, unset)
}

// The gravity of a mark.
fn gravity(alloc: Global, view: &ViewRef<'_, TreeStore>, name: &Word<'_>) -> Result<Reply, Fault>
    ensures { Answers (told_step (λ gravity. one_word (gravity_word gravity)) view.now (mark_gravity view.now name.now)) view.now result view.now }
{
    let gravity = mark_gravity(view, name.text())?;
    one_word(alloc, String::from_str(alloc, gravity.word())?)
}

// A mark gets a gravity. It takes no memory.
fn set_gravity(
    alloc: Global,
    view: &mut View<TreeStore>,
    name: &Word<'_>,
    gravity: Gravity,
) -> Result<Reply, Fault>
    ensures answers { Answers (changed_step (mark_gravity_set view.old name.now gravity)) view.old result view.new }
    ensures err { IsRefusedAs (changed_step (mark_gravity_set view.old name.now gravity)) result }
{
    let set = set_mark_gravity(view, name.text(), gravity);
    changed(alloc, set)
}

// The names of all marks.
fn all_marks(alloc: Global, view: &ViewRef<'_, TreeStore>) -> Result<Reply, Fault>
    ensures { Answers (Ok (mark_names view.now, view.now)) view.now result view.now }
{
    let words = mark_names(alloc, view)?;
    Ok(Reply { words })
}

// The mark after another, or after an index.
fn next_mark(alloc: Global, view: &ViewRef<'_, TreeStore>, word: &Word<'_>) -> Result<Reply, Fault>
    ensures { Answers (told_step word_or_none view.now (mark_next view.now word.now)) view.now result view.now }
{
    let name = mark_next(view, word.text())?;
    name_reply(alloc, name)
}

// The mark before another, or before an index.
fn previous_mark(
    alloc: Global,
    view: &ViewRef<'_, TreeStore>,
    word: &Word<'_>,
) -> Result<Reply, Fault>
    ensures { Answers (told_step word_or_none view.now (mark_previous view.now word.now)) view.now result view.now }
{
    let name = mark_previous(view, word.text())?;
    name_reply(alloc, name)
}

// What is asked of marks.
pub(crate) fn mark(
    alloc: Global,
    view: &mut View<TreeStore>,
    request: &MarkRequest<'_>,
) -> Result<Reply, Fault>
    ensures answers { Answers (mark_step view.old request.now) view.old result view.new }
    ensures memory { mark_takes_none request.now ≡ true → IsRefusedAs (mark_step view.old request.now) result }
{
    match request {
        MarkRequest::Set { name, index } => set_mark(alloc, view, name, index),
        MarkRequest::Unset { names } => unset_marks(alloc, view, names),
        MarkRequest::Gravity { name } => gravity(alloc, &view.shown(), name),
        MarkRequest::SetGravity { name, gravity } => set_gravity(alloc, view, name, *gravity),
        MarkRequest::Names => all_marks(alloc, &view.shown()),
        MarkRequest::Next { word } => next_mark(alloc, &view.shown(), word),
        MarkRequest::Previous { word } => previous_mark(alloc, &view.shown(), word),
    }
}
