// What a site shows of its text.
ghost use Rattle.std.specs.Prelude.{◌≡◌, ◌++◌, flat_map, IfOk, IsOkUnless, OnOk};
ghost use Rattle.rt_stamps.specs.Outcomes.{Answers};
ghost use Rattle.rt_stamps.specs.Words.{as_words};
ghost use Rattle.rt_tagcmd.specs.Dumping.{dumped};
ghost use Rattle.rt_peers.specs.ViewStep.{element_words, told_step};

use super::tagging::text_of;
use crate::replies::position_text;
use crate::reply::Reply;
use rt_requests::{Kinds, Word};
use rt_stamps::Fault;
use rt_tagcmd::Element;
use rt_text::ViewRef;
use rt_tree::TreeStore;
use std::alloc::Global;

// The words of an element behind others.
fn push_element(alloc: Global, words: &mut Vec<String>, element: &Element) -> Result<(), Fault>
    ensures ok { OnOk result (as_words words.new.items ≡ as_words words.old.items ++ element_words element.now) }
    ensures err { IsOkUnless result Fault.NoMemory }
{
    words.push(String::from_str(alloc, element.key().word())?)?;
    words.push(String::from_str(alloc, element.value())?)?;
    words.push(position_text(alloc, element.position())?)?;
    Ok(())
}

// A reply of elements.
fn elements_reply(alloc: Global, elements: &[Element]) -> Result<Reply, Fault>
    ensures ok { IfOk result (λ reply. reply ≡ flat_map element_words elements.now) }
    ensures err { IsOkUnless result Fault.NoMemory }
{
    let mut words = Vec::new(alloc);
    for element in elements {
        push_element(alloc, &mut words, element)?;
    }
    Ok(Reply { words })
}

// Tags, marks and text from an index up to before another, or of the character at an index.
pub(crate) fn dump(
    alloc: Global,
    view: &ViewRef<'_, TreeStore>,
    kinds: Kinds,
    from: &Word<'_>,
    to: &Option<Word<'_>>,
) -> Result<Reply, Fault>
    ensures { Answers (told_step (flat_map element_words) view.now (dumped view.now kinds from.now to.now)) view.now result view.now }
{
    let elements = rt_tagcmd::dump(alloc, view, kinds, from.text(), text_of(to))?;
    elements_reply(alloc, &elements)
}
