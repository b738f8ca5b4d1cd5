// Questions about the text.
ghost use Rattle.std.specs.Prelude.{◌≡◌, ◌⊎◌, Err};
ghost use Rattle.rt_stamps.specs.Words.{as_words};
ghost use Rattle.rt_requests.specs.declared.request.Request.TheVariants.{Get};
ghost use Rattle.rt_requests.specs.Asking.{asked_compare, asked_count, asked_distances, asked_dump, asked_elements, asked_from, asked_index};
ghost use Rattle.rt_requests.specs.Parts.{of_several};

use crate::kinds::Kinds;
use crate::measures::Measures;
use crate::request::Request;
use crate::switches::switches_len;
use crate::word::{Word, Words};
use rt_index::Comparison;
use rt_stamps::Fault;
use std::alloc::Global;

// `get INDEX ?INDEX ...?`.
pub(crate) fn get<'a>(words: &'a [String]) -> Result<Request<'a>, Fault>
    ensures { result ≡ of_several Get (as_words words.now) }
{
    let indices = Words::new(words).ok_or(Fault::BadCommand)?;
    Ok(Request::Get { indices })
}

// `index INDEX`.
pub(crate) fn index<'a>(words: &'a [String]) -> Result<Request<'a>, Fault>
    ensures { result ≡ asked_index (as_words words.now) }
{
    let [index] = words else {
        return Err(Fault::BadCommand);
    };
    Ok(Request::Index {
        index: Word::new(index),
    })
}

// `compare INDEX OPERATOR INDEX`.
pub(crate) fn compare<'a>(words: &'a [String]) -> Result<Request<'a>, Fault>
    ensures { result ≡ asked_compare (as_words words.now) }
{
    let [first, operator, second] = words else {
        return Err(Fault::BadCommand);
    };
    let Some(comparison) = Comparison::of(operator) else {
        return Err(Fault::BadOption);
    };
    Ok(Request::Compare {
        first: Word::new(first),
        comparison,
        second: Word::new(second),
    })
}

// `count ?SWITCH ...? INDEX INDEX`.
pub(crate) fn count<'a>(alloc: Global, words: &'a [String]) -> Result<Request<'a>, Fault>
    ensures { (result ≡ asked_count (as_words words.now)) ⊎ (result ≡ Err Fault.NoMemory) }
{
    let switches = switches_len(words);
    distances(alloc, &words[..switches], &words[switches..])
}

// `count` with its switches and its indices.
fn distances<'a>(
    alloc: Global,
    switches: &[String],
    indices: &'a [String],
) -> Result<Request<'a>, Fault>
    ensures { (result ≡ asked_distances (as_words switches.now) (as_words indices.now))
        ⊎ (result ≡ Err Fault.NoMemory) }
{
    let [from, to] = indices else {
        return Err(Fault::BadCommand);
    };
    let measures = Measures::of(alloc, switches)?;
    Ok(Request::Count {
        measures,
        from: Word::new(from),
        to: Word::new(to),
    })
}

// `dump ?SWITCH ...? INDEX ?INDEX?`.
pub(crate) fn dump<'a>(words: &'a [String]) -> Result<Request<'a>, Fault>
    ensures { result ≡ asked_dump (as_words words.now) }
{
    let switches = switches_len(words);
    elements(&words[..switches], &words[switches..])
}

// `dump` with its switches and its indices.
fn elements<'a>(switches: &[String], indices: &'a [String]) -> Result<Request<'a>, Fault>
    ensures { result ≡ asked_elements (as_words switches.now) (as_words indices.now) }
{
    match indices {
        [from] => elements_from(switches, from, None),
        [from, to] => elements_from(switches, from, Some(Word::new(to))),
        _ => Err(Fault::BadCommand),
    }
}

// `dump` from an index on.
fn elements_from<'a>(
    switches: &[String],
    from: &'a str,
    to: Option<Word<'a>>,
) -> Result<Request<'a>, Fault>
    ensures { result ≡ asked_from (as_words switches.now) from.now to.entry }
{
    let Some(kinds) = Kinds::of(switches) else {
        return Err(Fault::BadOption);
    };
    Ok(Request::Dump {
        kinds,
        from: Word::new(from),
        to,
    })
}
