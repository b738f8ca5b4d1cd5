// The marks after and before another, or an index.
ghost use Rattle.std.specs.Prelude.{◌≡◌, Ok, IfOk, IfErr, option_copied, option_map};
ghost use Rattle.rt_marks.specs.Seen.{spotted};
ghost use Rattle.rt_stamps.specs.Outcomes.{Refuses};
ghost use Rattle.rt_tagcmd.specs.Looking.{looked_from};
ghost use Rattle.rt_tagcmd.specs.MarkCommands.{mark_next, mark_previous, found_name};
ghost use Rattle.rt_text.specs.Widgets.{mark_of};

use crate::nearest::{first_after, last_before};
use crate::seen::{order, own_spot, seen};
use rt_index::is_fixed;
use rt_marks::{Gravity, MarkRef};
use rt_stamps::Fault;
use rt_store::TextStore;
use rt_text::{OwnMark, ViewRef};

/// Where the mark of a name stands among the characters that the widget shows, an own one or one of the site.
fn spot_of<'a, S: TextStore>(view: &ViewRef<'a, S>, name: &str) -> Option<MarkRef<'a>>
    ensures { option_map spotted result ≡ mark_of view.now name.now }
{
    order(view);
    match OwnMark::of(name) {
        Some(which) => Some(own_spot(view, which)),
        None => Some(seen(view.stretch(), view.doc().marks().find(name)?)),
    }
}

/// Where a word looks from.
fn look<'a, S: TextStore>(view: &ViewRef<'a, S>, word: &str) -> Result<MarkRef<'a>, Fault>
    ensures ok { IfOk result (λ spot. looked_from view.now word.now ≡ Ok (spotted spot)) }
    ensures err { IfErr result (Refuses (looked_from view.now word.now)) }
{
    if !is_fixed(word) {
        if let Some(spot) = spot_of(view, word) {
            return Ok(spot);
        }
    }
    let place = view.place(word)?;
    Ok(MarkRef {
        place,
        gravity: Gravity::Left,
        name: "",
    })
}

/// The name of the mark at a spot, if there is one.
fn found_name<'a>(mark: Option<MarkRef<'a>>) -> Option<&'a str>
    ensures { option_copied result ≡ found_name (option_map spotted mark.entry) }
{
    Some(mark?.name)
}

/// `mark next WORD` (Tk text manual): the name of the mark after the one that the word names, in the
/// order of place, gravity and name. A word that names no mark, or is a position or `end`, is an
/// index, and then it is the first mark at or after it. None where there is no such mark.
/// `BadIndex`, `NoneTagged`, or want of memory.
pub fn mark_next<'a, S: TextStore>(
    view: &ViewRef<'a, S>,
    word: &str,
) -> Result<Option<&'a str>, Fault>
    ensures ok { IfOk result (λ name. mark_next view.now word.now ≡ Ok (option_copied name)) }
    ensures err { IfErr result (Refuses (mark_next view.now word.now)) }
{
    order(view);
    let here = look(view, word)?;
    Ok(found_name(first_after(view, &here)))
}

/// `mark previous WORD` (Tk text manual): the name of the mark before the one that the word names, in
/// the order of place, gravity and name. A word that names no mark, or is a position or `end`, is an
/// index, and then it is the last mark strictly before it. None where there is no such mark.
/// `BadIndex`, `NoneTagged`, or want of memory.
pub fn mark_previous<'a, S: TextStore>(
    view: &ViewRef<'a, S>,
    word: &str,
) -> Result<Option<&'a str>, Fault>
    ensures ok { IfOk result (λ name. mark_previous view.now word.now ≡ Ok (option_copied name)) }
    ensures err { IfErr result (Refuses (mark_previous view.now word.now)) }
{
    order(view);
    let here = look(view, word)?;
    Ok(found_name(last_before(view, &here)))
}
