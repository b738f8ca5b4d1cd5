// Laws of the definitions, and of sites, each the contract of a function that changes nothing.
ghost use Rattle.std.specs.Prelude.{◌≡◌, ◌∷◌, ℕ, List, codes};
ghost use Rattle.rt_stamps.specs.Words.{Word};
ghost use Rattle.rt_words.specs.Spelling.{Spells};
ghost use Rattle.rt_script.specs.declared.answer.Answer.TheVariants.{Replied};
ghost use Rattle.rt_script.specs.Headline.{Headline};
ghost use Rattle.rt_script.specs.Lines.{AreCutLines, split_lines};
ghost use Rattle.rt_script.specs.Lived.{RunsLive, ScriptsLiveOn};
ghost use Rattle.rt_script.specs.Output.{LinesGoOneWay, RunsHaveOneOutput};
ghost use Rattle.rt_script.specs.Replies.{text_of_answer};
ghost use Rattle.rt_script.specs.SiteRun.{ReadsSuffice};

use rt_oplog::laws::joining;
use rt_peers::SiteState;
use rt_peers::laws::{
    accepted, exchange, lives_on, one_way, sites_agree, sites_agree_in_any_order,
};
use rt_requests::laws::{reading_is_total, reading_is_unique};
use rt_rga::laws::histories;

/// The text of a reply spells `=` and the reply's words, whatever characters they have, and
/// nothing else.
pub fn reply_is_read_back()
    ensures spells { (words : List Word) → Spells (text_of_answer (Replied words)) (codes "=" ∷ words) }
    ensures nothing_else { (words others : List Word) → Spells (text_of_answer (Replied words)) others → others ≡ codes "=" ∷ words }
{}

/// Each newline of a script ends a line: the lines, each with its newline, and what follows the last one are the script's
/// bytes, and no newline stands in a line or in what follows.
pub fn lines_are_cut()
    ensures { (bytes : List ℕ) → AreCutLines bytes (split_lines bytes).0 (split_lines bytes).1 }
{}

/// The reads of `run` suffice for its bytes, since each read but the last gives one: it ends with `ReadFault` where a read
/// failed, or a byte came past the bound.
pub fn reads_suffice()
    ensures { ReadsSuffice }
{}

/// A run of a script by a site is so many calls of it, however it ends: to a site that was begun, with a log or
/// without, and that ran a script, operations came that are of its own number, of the log or of files that its lines
/// may name, and `sites_agree_in_any_order` and `accepted` of rt_peers speak of it.
pub fn runs()
    ensures lives { RunsLive }
    ensures scripts { ScriptsLiveOn }
{}

/// A whole run has one output: what a site of a number writes, and the site that is left, are decided by the log that it
/// begins with, the files that its lines may name and the bytes of its script, where the run ends with no fault and no
/// memory was wanting. So are the answers of lines that are run one after the other.
pub fn one_output()
    ensures lines { LinesGoOneWay }
    ensures runs { RunsHaveOneOutput }
{}

/// The headline, of any two sites: what is proved of them together. `Headline` names behind each sentence the law that
/// has it.
pub fn headline(one: &SiteState, other: &SiteState)
    ensures { Headline one.now other.now }
{
    sites_agree(one, other);
    sites_agree_in_any_order(one, other);
    exchange(one, other);
    accepted();
    one_way();
    lives_on();
    histories();
    joining();
    reading_is_total();
    reading_is_unique();
    runs();
    one_output();
    // For their clauses alone.
    let _ = one.log();
    let _ = other.log();
}
