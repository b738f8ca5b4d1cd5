// What is asked of tags.
ghost use Rattle.std.specs.Prelude.{◌≡◌};
ghost use Rattle.rt_stamps.specs.Words.{as_words};
ghost use Rattle.rt_requests.specs.declared.request.TagRequest.TheVariants.{Add, Delete, Lower, NextRange, PreviousRange, Raise, Ranges, Remove};
ghost use Rattle.rt_requests.specs.Asking.{asked_tag};
ghost use Rattle.rt_requests.specs.Parts.{of_one, of_several};
ghost use Rattle.rt_requests.specs.TagWords.{asked_of_tags, asked_order, asked_range, asked_tag_names, asked_tagging};

use crate::request::{Request, TagRequest};
use crate::word::{Word, Words};
use rt_stamps::Fault;

// `tag WHAT ?WORD ...?`.
pub(crate) fn tag<'a>(words: &'a [String]) -> Result<Request<'a>, Fault>
    ensures { result ≡ asked_tag (as_words words.now) }
{
    let Some((what, words)) = words.split_first() else {
        return Err(Fault::BadCommand);
    };
    let request = of_tags(what, words)?;
    Ok(Request::Tag(request))
}

// What is asked, by its name.
fn of_tags<'a>(what: &str, words: &'a [String]) -> Result<TagRequest<'a>, Fault>
    ensures { result ≡ asked_of_tags what.now (as_words words.now) }
{
    match what {
        "add" => add(words),
        "remove" => remove(words),
        "delete" => delete(words),
        "raise" => raise(words),
        "lower" => lower(words),
        "names" => names(words),
        "ranges" => ranges(words),
        "nextrange" => next_range(words),
        "prevrange" => previous_range(words),
        _ => Err(Fault::BadCommand),
    }
}

// `tag add NAME INDEX ?INDEX ...?`.
fn add<'a>(words: &'a [String]) -> Result<TagRequest<'a>, Fault>
    ensures { result ≡ asked_tagging Add (as_words words.now) }
{
    let Some((name, words)) = words.split_first() else {
        return Err(Fault::BadCommand);
    };
    let indices = Words::new(words).ok_or(Fault::BadCommand)?;
    Ok(TagRequest::Add {
        name: Word::new(name),
        indices,
    })
}

// `tag remove NAME INDEX ?INDEX ...?`.
fn remove<'a>(words: &'a [String]) -> Result<TagRequest<'a>, Fault>
    ensures { result ≡ asked_tagging Remove (as_words words.now) }
{
    let Some((name, words)) = words.split_first() else {
        return Err(Fault::BadCommand);
    };
    let indices = Words::new(words).ok_or(Fault::BadCommand)?;
    Ok(TagRequest::Remove {
        name: Word::new(name),
        indices,
    })
}

// `tag delete NAME ?NAME ...?`.
fn delete<'a>(words: &'a [String]) -> Result<TagRequest<'a>, Fault>
    ensures { result ≡ of_several Delete (as_words words.now) }
{
    let names = Words::new(words).ok_or(Fault::BadCommand)?;
    Ok(TagRequest::Delete { names })
}

// `tag raise NAME ?ABOVE?`.
fn raise<'a>(words: &'a [String]) -> Result<TagRequest<'a>, Fault>
    ensures { result ≡ asked_order Raise (as_words words.now) }
{
    match words {
        [name] => Ok(TagRequest::Raise {
            name: Word::new(name),
            above: None,
        }),
        [name, above] => Ok(TagRequest::Raise {
            name: Word::new(name),
            above: Some(Word::new(above)),
        }),
        _ => Err(Fault::BadCommand),
    }
}

// `tag lower NAME ?BELOW?`.
fn lower<'a>(words: &'a [String]) -> Result<TagRequest<'a>, Fault>
    ensures { result ≡ asked_order Lower (as_words words.now) }
{
    match words {
        [name] => Ok(TagRequest::Lower {
            name: Word::new(name),
            below: None,
        }),
        [name, below] => Ok(TagRequest::Lower {
            name: Word::new(name),
            below: Some(Word::new(below)),
        }),
        _ => Err(Fault::BadCommand),
    }
}

// `tag names ?INDEX?`.
fn names<'a>(words: &'a [String]) -> Result<TagRequest<'a>, Fault>
    ensures { result ≡ asked_tag_names (as_words words.now) }
{
    match words {
        [] => Ok(TagRequest::Names),
        [index] => Ok(TagRequest::NamesAt {
            index: Word::new(index),
        }),
        _ => Err(Fault::BadCommand),
    }
}

// `tag ranges NAME`.
fn ranges<'a>(words: &'a [String]) -> Result<TagRequest<'a>, Fault>
    ensures { result ≡ of_one Ranges (as_words words.now) }
{
    let [name] = words else {
        return Err(Fault::BadCommand);
    };
    Ok(TagRequest::Ranges {
        name: Word::new(name),
    })
}

// `tag nextrange NAME INDEX ?INDEX?`.
fn next_range<'a>(words: &'a [String]) -> Result<TagRequest<'a>, Fault>
    ensures { result ≡ asked_range NextRange (as_words words.now) }
{
    match words {
        [name, from] => Ok(TagRequest::NextRange {
            name: Word::new(name),
            from: Word::new(from),
            to: None,
        }),
        [name, from, to] => Ok(TagRequest::NextRange {
            name: Word::new(name),
            from: Word::new(from),
            to: Some(Word::new(to)),
        }),
        _ => Err(Fault::BadCommand),
    }
}

// `tag prevrange NAME INDEX ?INDEX?`.
fn previous_range<'a>(words: &'a [String]) -> Result<TagRequest<'a>, Fault>
    ensures { result ≡ asked_range PreviousRange (as_words words.now) }
{
    match words {
        [name, to] => Ok(TagRequest::PreviousRange {
            name: Word::new(name),
            to: Word::new(to),
            from: None,
        }),
        [name, to, from] => Ok(TagRequest::PreviousRange {
            name: Word::new(name),
            to: Word::new(to),
            from: Some(Word::new(from)),
        }),
        _ => Err(Fault::BadCommand),
    }
}
