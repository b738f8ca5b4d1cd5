// What is searched for.
ghost use Rattle.std.specs.Prelude.{◌≡◌, ◌≤◌, length, string_bytes};
ghost use Rattle.std.specs.List.{prefix_len};
ghost use Rattle.rt_stamps.specs.Words.{as_words};
ghost use Rattle.rt_requests.specs.declared.request.Request.TheVariants.{Search};
ghost use Rattle.rt_requests.specs.Asking.{as_request};
ghost use Rattle.rt_requests.specs.SearchWords.{asked_by_arguments, asked_by_switches, asked_of_search, is_search_switch, without_dashes};

use crate::request::{Request, SearchRequest};
use crate::search_switches::{check_switches, search_of, wanted_of};
use crate::switches::is_switch;
use crate::word::Word;
use rt_stamps::Fault;

// `search ?SWITCH ...? PATTERN INDEX ?STOPINDEX?`.
pub(crate) fn search<'a>(words: &'a [String]) -> Result<Request<'a>, Fault>
    ensures { result ≡ as_request Search (asked_of_search (as_words words.now)) }
{
    let request = of_search(words)?;
    Ok(Request::Search(request))
}

// What is searched for, as words.
fn of_search<'a>(words: &'a [String]) -> Result<SearchRequest<'a>, Fault>
    ensures { result ≡ asked_of_search (as_words words.now) }
{
    let switches = search_switches_len(words);
    by_arguments(&words[..switches], without_dashes(&words[switches..]))
}

// Whether a word is a switch of a search.
fn is_search_switch(word: &str) -> bool
    ensures { result ≡ is_search_switch word.now }
{
    is_switch(word) && word != "--"
}

// How many switches of a search some words begin with.
fn search_switches_len(words: &[String]) -> usize
    ensures value { result ≡ prefix_len is_search_switch (as_words words.now) }
    ensures within { result ≤ length words.now }
{
    count_switches(words)
}

// What `search_switches_len` counts, of the strings themselves.
fn count_switches(words: &[String]) -> usize
    ensures value { result ≡ prefix_len (λ w. is_search_switch (string_bytes w)) words.now }
    ensures within { result ≤ length words.now }
{
    words
        .iter()
        .take_while(|word| is_search_switch(word))
        .count()
}

// The words behind a `--`, which may stand in front of them.
fn without_dashes(words: &[String]) -> &[String]
    ensures { as_words result.now ≡ without_dashes (as_words words.now) }
{
    match words {
        [first, rest @ ..] if first.as_str() == "--" => rest,
        _ => words,
    }
}

// `search` with its switches and its arguments.
fn by_arguments<'a>(
    switches: &[String],
    arguments: &'a [String],
) -> Result<SearchRequest<'a>, Fault>
    ensures { result ≡ asked_by_arguments (as_words switches.now) (as_words arguments.now) }
{
    match arguments {
        [pattern, start] => by_switches(switches, pattern, start, None),
        [pattern, start, stop] => by_switches(switches, pattern, start, Some(Word::new(stop))),
        _ => Err(Fault::BadCommand),
    }
}

// `search` by switches, where they may be given.
fn by_switches<'a>(
    switches: &[String],
    pattern: &'a str,
    start: &'a str,
    stop: Option<Word<'a>>,
) -> Result<SearchRequest<'a>, Fault>
    ensures { result ≡ asked_by_switches (as_words switches.now) pattern.now start.now stop.entry }
{
    check_switches(switches)?;
    Ok(SearchRequest {
        search: search_of(switches),
        wanted: wanted_of(switches),
        pattern: Word::new(pattern),
        start: Word::new(start),
        stop,
    })
}
