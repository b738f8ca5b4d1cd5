// What is asked of marks.
ghost use Rattle.std.specs.Prelude.{◌≡◌};
ghost use Rattle.rt_stamps.specs.Words.{as_words};
ghost use Rattle.rt_requests.specs.declared.request.MarkRequest.TheVariants.{Next, Previous, Unset};
ghost use Rattle.rt_requests.specs.Asking.{asked_mark};
ghost use Rattle.rt_requests.specs.MarkWords.{asked_gravity, asked_mark_names, asked_mark_set, asked_of_marks};
ghost use Rattle.rt_requests.specs.Parts.{of_one, of_several};

use crate::request::{MarkRequest, Request};
use crate::word::{Word, Words};
use rt_marks::Gravity;
use rt_stamps::Fault;

// `mark WHAT ?WORD ...?`.
pub(crate) fn mark<'a>(words: &'a [String]) -> Result<Request<'a>, Fault>
    ensures { result ≡ asked_mark (as_words words.now) }
{
    let Some((what, words)) = words.split_first() else {
        return Err(Fault::BadCommand);
    };
    let request = of_marks(what, words)?;
    Ok(Request::Mark(request))
}

// What is asked, by its name.
fn of_marks<'a>(what: &str, words: &'a [String]) -> Result<MarkRequest<'a>, Fault>
    ensures { result ≡ asked_of_marks what.now (as_words words.now) }
{
    match what {
        "set" => set(words),
        "unset" => unset(words),
        "gravity" => gravity(words),
        "names" => names(words),
        "next" => next(words),
        "previous" => previous(words),
        _ => Err(Fault::BadCommand),
    }
}

// `mark set NAME INDEX`.
fn set<'a>(words: &'a [String]) -> Result<MarkRequest<'a>, Fault>
    ensures { result ≡ asked_mark_set (as_words words.now) }
{
    let [name, index] = words else {
        return Err(Fault::BadCommand);
    };
    Ok(MarkRequest::Set {
        name: Word::new(name),
        index: Word::new(index),
    })
}

// `mark unset NAME ?NAME ...?`.
fn unset<'a>(words: &'a [String]) -> Result<MarkRequest<'a>, Fault>
    ensures { result ≡ of_several Unset (as_words words.now) }
{
    let names = Words::new(words).ok_or(Fault::BadCommand)?;
    Ok(MarkRequest::Unset { names })
}

// `mark gravity NAME ?GRAVITY?`.
fn gravity<'a>(words: &'a [String]) -> Result<MarkRequest<'a>, Fault>
    ensures { result ≡ asked_gravity (as_words words.now) }
{
    match words {
        [name] => Ok(MarkRequest::Gravity {
            name: Word::new(name),
        }),
        [name, word] => match Gravity::of(word) {
            Some(gravity) => Ok(MarkRequest::SetGravity {
                name: Word::new(name),
                gravity,
            }),
            None => Err(Fault::BadOption),
        },
        _ => Err(Fault::BadCommand),
    }
}

// `mark names`.
fn names<'a>(words: &'a [String]) -> Result<MarkRequest<'a>, Fault>
    ensures { result ≡ asked_mark_names (as_words words.now) }
{
    match words {
        [] => Ok(MarkRequest::Names),
        _ => Err(Fault::BadCommand),
    }
}

// `mark next INDEX`.
fn next<'a>(words: &'a [String]) -> Result<MarkRequest<'a>, Fault>
    ensures { result ≡ of_one Next (as_words words.now) }
{
    let [word] = words else {
        return Err(Fault::BadCommand);
    };
    Ok(MarkRequest::Next {
        word: Word::new(word),
    })
}

// `mark previous INDEX`.
fn previous<'a>(words: &'a [String]) -> Result<MarkRequest<'a>, Fault>
    ensures { result ≡ of_one Previous (as_words words.now) }
{
    let [word] = words else {
        return Err(Fault::BadCommand);
    };
    Ok(MarkRequest::Previous {
        word: Word::new(word),
    })
}
