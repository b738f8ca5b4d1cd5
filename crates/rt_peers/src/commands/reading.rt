// What a site says of its text: texts, positions, comparisons and distances.
ghost use Rattle.std.specs.Prelude.{◌≡◌, map, IfOk, IfErr};
ghost use Rattle.std.specs.Fmt.{signed_decimal};
ghost use Rattle.rt_stamps.specs.Outcomes.{Answers};
ghost use Rattle.rt_stamps.specs.Places.{text_of_position};
ghost use Rattle.rt_stamps.specs.Words.{as_words};
ghost use Rattle.rt_requests.specs.Parts.{all_of};
ghost use Rattle.rt_text.specs.Commands.{got_one, got, got_list, position_of_index, compared, counted};
ghost use Rattle.rt_peers.specs.ViewStep.{get_step, one_word, text_of_bool, told_step};

use crate::replies::{numbers, one_word, position_text, truth};
use crate::reply::Reply;
use rt_requests::{Comparison, Measures, Word, Words};
use rt_stamps::Fault;
use rt_text::ViewRef;
use rt_tree::TreeStore;
use std::alloc::Global;

// The text of some indices.
pub(crate) fn get(
    alloc: Global,
    view: &ViewRef<'_, TreeStore>,
    indices: &Words<'_>,
) -> Result<Reply, Fault>
    ensures { Answers (get_step view.now (all_of indices.now)) view.now result view.now }
{
    let indices = indices.all();
    match indices {
        [index] => get_one(alloc, view, index),
        [from, to] => get_between(alloc, view, from, to),
        [_, _, _, ..] => get_list(view, indices),
        [] => get_list(view, indices),
    }
}

// The character at an index.
fn get_one(alloc: Global, view: &ViewRef<'_, TreeStore>, index: &str) -> Result<Reply, Fault>
    ensures { Answers (told_step one_word view.now (got_one view.now index.now)) view.now result view.now }
{
    let text = view.get_one(index)?;
    one_word(alloc, text)
}

// The text from an index to another.
fn get_between(
    alloc: Global,
    view: &ViewRef<'_, TreeStore>,
    from: &str,
    to: &str,
) -> Result<Reply, Fault>
    ensures { Answers (told_step one_word view.now (got view.now from.now to.now)) view.now result view.now }
{
    let text = view.get(from, to)?;
    one_word(alloc, text)
}

// The texts of more indices.
fn get_list(view: &ViewRef<'_, TreeStore>, indices: &[String]) -> Result<Reply, Fault>
    ensures { Answers (told_step (λ texts. texts) view.now (got_list view.now (as_words indices.now))) view.now result view.now }
{
    let words = view.get_list(indices)?;
    Ok(Reply { words })
}

// Where an index stands.
pub(crate) fn index(
    alloc: Global,
    view: &ViewRef<'_, TreeStore>,
    index: &Word<'_>,
) -> Result<Reply, Fault>
    ensures { Answers (told_step (λ position. one_word (text_of_position position)) view.now (position_of_index view.now index.now))
        view.now result view.now }
{
    let position = view.index(index.text())?;
    let text = position_text(alloc, position)?;
    one_word(alloc, text)
}

// Whether a comparison holds of two indices.
pub(crate) fn compare(
    alloc: Global,
    view: &ViewRef<'_, TreeStore>,
    first: &Word<'_>,
    comparison: Comparison,
    second: &Word<'_>,
) -> Result<Reply, Fault>
    ensures { Answers (told_step (λ holds. one_word (text_of_bool holds)) view.now (compared view.now first.now comparison second.now))
        view.now result view.now }
{
    let holds = view.compare(first.text(), comparison, second.text())?;
    truth(alloc, holds)
}

// How far an index is from another.
pub(crate) fn count(
    alloc: Global,
    view: &ViewRef<'_, TreeStore>,
    measures: &Measures,
    from: &Word<'_>,
    to: &Word<'_>,
) -> Result<Reply, Fault>
    ensures { Answers (told_step (map signed_decimal) view.now (counted view.now measures.now from.now to.now)) view.now result view.now }
{
    let distances = view.count(measures.all(), from.text(), to.text())?;
    numbers(alloc, &distances)
}
