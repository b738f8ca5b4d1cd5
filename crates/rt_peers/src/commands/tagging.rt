// What is asked of tags.
ghost use Rattle.std.specs.Prelude.{◌≡◌, map, option_copied, true, Ok};
ghost use Rattle.rt_stamps.specs.Outcomes.{Answers};
ghost use Rattle.rt_stamps.specs.Places.{text_of_position};
ghost use Rattle.rt_requests.specs.Parts.{all_of};
ghost use Rattle.rt_tagcmd.specs.TagCommands.{tag_added, tag_removed, tags_deleted, tag_raised, tag_lowered, tag_names, tag_names_at, tag_ranges, tag_nextrange, tag_prevrange};
ghost use Rattle.rt_peers.specs.TakesNone.{IsRefusedAs, tag_takes_none};
ghost use Rattle.rt_peers.specs.ViewStep.{changed_step, tag_step, told_step};

use crate::replies::{changed, positions_reply};
use crate::reply::Reply;
use rt_requests::{TagRequest, Word, Words};
use rt_stamps::Fault;
use rt_tagcmd::{
    tag_add, tag_delete, tag_lower, tag_names, tag_names_at, tag_nextrange, tag_prevrange,
    tag_raise, tag_ranges, tag_remove,
};
use rt_text::{View, ViewRef};
use rt_tree::TreeStore;
use std::alloc::Global;

// The text of a word that may be wanting.
pub(crate) fn text_of<'a>(word: &Option<Word<'a>>) -> Option<&'a str>
    ensures { option_copied result ≡ word.now }
{
    match word {
        Some(word) => Some(word.text()),
        None => None,
    }
}

// The characters in the ranges of some indices get a tag.
fn add_tag(
    alloc: Global,
    view: &mut View<TreeStore>,
    name: &Word<'_>,
    indices: &Words<'_>,
) -> Result<Reply, Fault>
    ensures { Answers (changed_step (tag_added view.old name.now (all_of indices.now))) view.old result view.new }
{
    let added = tag_add(view, name.text(), indices.all());
    changed(alloc, added)
}

// They lose a tag.
fn remove_tag(
    alloc: Global,
    view: &mut View<TreeStore>,
    name: &Word<'_>,
    indices: &Words<'_>,
) -> Result<Reply, Fault>
    ensures { Answers (changed_step (tag_removed view.old name.now (all_of indices.now))) view.old result view.new }
{
    let removed = tag_remove(view, name.text(), indices.all());
    changed(alloc, removed)
}

// Takes tags off the text and off the list.
fn delete_tags(alloc: Global, view: &mut View<TreeStore>, names: &Words<'_>) -> Result<Reply, Fault>
    ensures { Answers (changed_step (tags_deleted view.old (all_of names.now))) view.old result view.new }
{
    let deleted = tag_delete(view, names.all());
    changed(alloc, deleted)
}

// A tag is put just above another, or highest. It takes no memory.
fn raise(
    alloc: Global,
    view: &mut View<TreeStore>,
    name: &Word<'_>,
    above: &Option<Word<'_>>,
) -> Result<Reply, Fault>
    ensures answers { Answers (changed_step (tag_raised view.old name.now above.now)) view.old result view.new }
    ensures err { IsRefusedAs (changed_step (tag_raised view.old name.now above.now)) result }
{
    let raised = tag_raise(view, name.text(), text_of(above));
    changed(alloc, raised)
}

// A tag is put just below another, or lowest. It takes no memory.
fn lower(
    alloc: Global,
    view: &mut View<TreeStore>,
    name: &Word<'_>,
    below: &Option<Word<'_>>,
) -> Result<Reply, Fault>
    ensures answers { Answers (changed_step (tag_lowered view.old name.now below.now)) view.old result view.new }
    ensures err { IsRefusedAs (changed_step (tag_lowered view.old name.now below.now)) result }
{
    let lowered = tag_lower(view, name.text(), text_of(below));
    changed(alloc, lowered)
}

// All listed tags.
fn all_tags(view: &ViewRef<'_, TreeStore>) -> Result<Reply, Fault>
    ensures { Answers (Ok (tag_names view.now, view.now)) view.now result view.now }
{
    let words = tag_names(view)?;
    Ok(Reply { words })
}

// The tags of the character at an index.
fn tags_at(alloc: Global, view: &ViewRef<'_, TreeStore>, index: &Word<'_>) -> Result<Reply, Fault>
    ensures { Answers (told_step (λ names. names) view.now (tag_names_at view.now index.now)) view.now result view.now }
{
    let words = tag_names_at(alloc, view, index.text())?;
    Ok(Reply { words })
}

// The ranges of a tag.
fn ranges(alloc: Global, view: &ViewRef<'_, TreeStore>, name: &Word<'_>) -> Result<Reply, Fault>
    ensures { Answers (told_step (map text_of_position) view.now (tag_ranges view.now name.now)) view.now result view.now }
{
    let positions = tag_ranges(alloc, view, name.text())?;
    positions_reply(alloc, &positions)
}

// The first range of a tag that begins at an index or later, and before another or the end.
fn next_range(
    alloc: Global,
    view: &ViewRef<'_, TreeStore>,
    name: &Word<'_>,
    from: &Word<'_>,
    to: &Option<Word<'_>>,
) -> Result<Reply, Fault>
    ensures { Answers (told_step (map text_of_position) view.now (tag_nextrange view.now name.now from.now to.now)) view.now result view.now }
{
    let positions = tag_nextrange(alloc, view, name.text(), from.text(), text_of(to))?;
    positions_reply(alloc, &positions)
}

// The last range of a tag that begins before an index, and at another or later, or anywhere.
fn previous_range(
    alloc: Global,
    view: &ViewRef<'_, TreeStore>,
    name: &Word<'_>,
    to: &Word<'_>,
    from: &Option<Word<'_>>,
) -> Result<Reply, Fault>
    ensures { Answers (told_step (map text_of_position) view.now (tag_prevrange view.now name.now to.now from.now)) view.now result view.now }
{
    let positions = tag_prevrange(alloc, view, name.text(), to.text(), text_of(from))?;
    positions_reply(alloc, &positions)
}

// What is asked of tags.
pub(crate) fn tag(
    alloc: Global,
    view: &mut View<TreeStore>,
    request: &TagRequest<'_>,
) -> Result<Reply, Fault>
    ensures answers { Answers (tag_step view.old request.now) view.old result view.new }
    ensures memory { tag_takes_none request.now ≡ true → IsRefusedAs (tag_step view.old request.now) result }
{
    match request {
        TagRequest::Add { name, indices } => add_tag(alloc, view, name, indices),
        TagRequest::Remove { name, indices } => remove_tag(alloc, view, name, indices),
        TagRequest::Delete { names } => delete_tags(alloc, view, names),
        TagRequest::Raise { name, above } => raise(alloc, view, name, above),
        TagRequest::Lower { name, below } => lower(alloc, view, name, below),
        TagRequest::Names => all_tags(&view.shown()),
        TagRequest::NamesAt { index } => tags_at(alloc, &view.shown(), index),
        TagRequest::Ranges { name } => ranges(alloc, &view.shown(), name),
        TagRequest::NextRange { name, from, to } => {
            next_range(alloc, &view.shown(), name, from, to)
        }
        TagRequest::PreviousRange { name, to, from } => {
            previous_range(alloc, &view.shown(), name, to, from)
        }
    }
}
