// What is asked of the undo mechanism.
ghost use Rattle.std.specs.Prelude.{◌≡◌};
ghost use Rattle.rt_stamps.specs.Words.{as_words};
ghost use Rattle.rt_requests.specs.Asking.{asked_edit};
ghost use Rattle.rt_requests.specs.EditWords.{alone, asked_modified, asked_of_edits};

use crate::options::truth_of;
use crate::request::{EditRequest, Request};
use rt_stamps::Fault;

// `edit WHAT ?WORD ...?`.
pub(crate) fn edit<'a>(words: &'a [String]) -> Result<Request<'a>, Fault>
    ensures { result ≡ asked_edit (as_words words.now) }
{
    let Some((what, words)) = words.split_first() else {
        return Err(Fault::BadCommand);
    };
    let request = of_edits(what, words)?;
    Ok(Request::Edit(request))
}

// What is asked, by its name.
fn of_edits(what: &str, words: &[String]) -> Result<EditRequest, Fault>
    ensures { result ≡ asked_of_edits what.now (as_words words.now) }
{
    match what {
        "undo" => alone(EditRequest::Undo, words),
        "redo" => alone(EditRequest::Redo, words),
        "separator" => alone(EditRequest::Separator, words),
        "reset" => alone(EditRequest::Reset, words),
        "canundo" => alone(EditRequest::CanUndo, words),
        "canredo" => alone(EditRequest::CanRedo, words),
        "modified" => modified(words),
        _ => Err(Fault::BadCommand),
    }
}

// What is asked by a name with no word behind it.
fn alone(request: EditRequest, words: &[String]) -> Result<EditRequest, Fault>
    ensures { result ≡ alone request (as_words words.now) }
{
    match words {
        [] => Ok(request),
        _ => Err(Fault::BadCommand),
    }
}

// `edit modified ?BOOLEAN?`.
fn modified(words: &[String]) -> Result<EditRequest, Fault>
    ensures { result ≡ asked_modified (as_words words.now) }
{
    match words {
        [] => Ok(EditRequest::Modified),
        [word] => match truth_of(word) {
            Some(modified) => Ok(EditRequest::SetModified { modified }),
            None => Err(Fault::BadOption),
        },
        _ => Err(Fault::BadCommand),
    }
}
