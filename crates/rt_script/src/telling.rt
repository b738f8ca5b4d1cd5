// What the words of a line change, at a site that has no files.
ghost use Rattle.std.specs.Prelude.{◌≡◌, [], Some};
ghost use Rattle.rt_stamps.specs.Words.{as_words};
ghost use Rattle.rt_peers.specs.SiteValue.{SiteValue};
ghost use Rattle.rt_script.specs.declared.answer.Answer.TheVariants.{Refused};
ghost use Rattle.rt_script.specs.Site.{ReceiveGives, WordsGive, as_answer};
ghost use Rattle.rt_script.specs.Telling.{TellsChanges, told_items};

use crate::site_lines::{destroy, is_destroy, is_receive};
use rt_peers::{Reply, SiteState, ToldAnswer};
use rt_stamps::Fault;
use std::alloc::Global;

// Why `receive NAME` is refused, where there is no file.
fn receive(words: &[String]) -> Fault
    ensures { (site : SiteValue) → ReceiveGives [] (as_words words.now) site (Refused result) site }
{
    match words {
        [_] => Fault::NoFile,
        _ => Fault::BadCommand,
    }
}

// What is replied to words that change nothing in the visible text.
fn untold(alloc: Global, reply: Result<Reply, Fault>) -> ToldAnswer
    ensures reply { result.reply ≡ reply }
    ensures changes { told_items result.changes ≡ Some [] }
{
    ToldAnswer {
        reply,
        changes: Some(Vec::new(alloc)),
    }
}

/// What is replied to the words of a line by a site that has no files, and what they change in the visible text, as
/// `SiteState::command_telling` tells it.
pub(crate) fn words_tell(alloc: Global, site: &mut SiteState, words: &[String]) -> ToldAnswer
    ensures gives { WordsGive [] (as_words words.now) site.old (as_answer result.reply) site.new }
    ensures tells { TellsChanges site.old site.new (told_items result.changes) }
{
    let Some((first, rest)) = words.split_first() else {
        return untold(alloc, Err(Fault::BadCommand));
    };
    if is_receive(first) {
        return untold(alloc, Err(receive(rest)));
    }
    if is_destroy(first) {
        return untold(alloc, destroy(site, rest));
    }
    site.command_telling(first, rest)
}
