// Insertions and removals.
ghost use Rattle.std.specs.Prelude.{◌≡◌, ◌<◌, ◌⊎◌, [], ◌∷◌, Err, IfOk, IfErr, length};
ghost use Rattle.rt_stamps.specs.Words.{as_words};
ghost use Rattle.rt_words.specs.Spelling.{SpellsList, IsBadlyQuotedList};
ghost use Rattle.rt_requests.specs.declared.request.Request.TheVariants.{Delete, Insert, Replace};
ghost use Rattle.rt_requests.specs.Asking.{AreTexts, AreNoTexts, AsksInsert, AsksReplace, AsksTexts};
ghost use Rattle.rt_requests.specs.Parts.{of_several};

use crate::request::Request;
use crate::texts::{TaggedText, Texts};
use crate::word::{Word, Words};
use rt_stamps::Fault;
use rt_words::words::list_words;
use std::alloc::Global;

// `insert INDEX CHARS ?TAGLIST CHARS TAGLIST ...?`.
pub(crate) fn insert<'a>(alloc: Global, words: &'a [String]) -> Result<Request<'a>, Fault>
    ensures { AsksInsert (as_words words.now) result ⊎ (result ≡ Err Fault.NoMemory) }
{
    let Some((index, words)) = words.split_first() else {
        return Err(Fault::BadCommand);
    };
    if words.is_empty() {
        return Err(Fault::BadCommand);
    }
    insert_texts(alloc, index, words)
}

// `insert` of texts with their lists, as words.
fn insert_texts<'a>(
    alloc: Global,
    index: &'a str,
    words: &'a [String],
) -> Result<Request<'a>, Fault>
    ensures { AsksTexts (Insert index.now) (as_words words.now) result ⊎ (result ≡ Err Fault.NoMemory) }
{
    let texts = read_texts(alloc, words)?;
    Ok(Request::Insert {
        index: Word::new(index),
        texts,
    })
}

// `replace INDEX1 INDEX2 CHARS ?TAGLIST CHARS TAGLIST ...?`.
pub(crate) fn replace<'a>(alloc: Global, words: &'a [String]) -> Result<Request<'a>, Fault>
    ensures { AsksReplace (as_words words.now) result ⊎ (result ≡ Err Fault.NoMemory) }
{
    let Some((from, words)) = words.split_first() else {
        return Err(Fault::BadCommand);
    };
    replace_from(alloc, from, words)
}

// `replace` from an index, with the words behind it.
fn replace_from<'a>(alloc: Global, from: &'a str, words: &'a [String]) -> Result<Request<'a>, Fault>
    ensures { AsksReplace (from.now ∷ as_words words.now) result ⊎ (result ≡ Err Fault.NoMemory) }
{
    let Some((to, texts)) = words.split_first() else {
        return Err(Fault::BadCommand);
    };
    if texts.is_empty() {
        return Err(Fault::BadCommand);
    }
    replace_by_texts(alloc, from, to, texts)
}

// `replace` by texts with their lists, as words.
fn replace_by_texts<'a>(
    alloc: Global,
    from: &'a str,
    to: &'a str,
    words: &'a [String],
) -> Result<Request<'a>, Fault>
    ensures { AsksTexts (Replace from.now to.now) (as_words words.now) result ⊎ (result ≡ Err Fault.NoMemory) }
{
    let texts = read_texts(alloc, words)?;
    Ok(Request::Replace {
        from: Word::new(from),
        to: Word::new(to),
        texts,
    })
}

// A text with the words of its list. `BadQuoting` where the list spells no words.
fn piece<'a>(alloc: Global, text: &'a str, list: &str) -> Result<TaggedText<'a>, Fault>
    ensures ok { IfOk result (λ piece. (piece.text ≡ text.now) × SpellsList list.now piece.tags) }
    ensures quoting { result ≡ Err Fault.BadQuoting → IsBadlyQuotedList list.now }
    ensures fault { IfErr result (λ fault. (fault ≡ Fault.NoMemory) ⊎ (fault ≡ Fault.BadQuoting)) }
{
    let tags = list_words(alloc, list)?;
    Ok(TaggedText::new(text, tags))
}

// The text that is the only word, or an empty one where there is no word.
fn only_text(words: &[String]) -> &str
    requires { length words.now < 2 }
    ensures { AreTexts (as_words words.now) [] result.now }
{
    match words {
        [text] => text,
        _ => "",
    }
}

// Texts with their lists, in pairs of words, and then a text without a list. `BadQuoting` where a
// list spells no words, or want of memory.
#[inline(always)]
fn read_texts<'a>(alloc: Global, words: &'a [String]) -> Result<Texts<'a>, Fault>
    ensures ok { IfOk result (λ texts. AreTexts (as_words words.now) texts.pieces texts.rest) }
    ensures quoting { result ≡ Err Fault.BadQuoting → AreNoTexts (as_words words.now) }
    ensures fault { IfErr result (λ fault. (fault ≡ Fault.NoMemory) ⊎ (fault ≡ Fault.BadQuoting)) }
{
    let mut pieces = Vec::new(alloc);
    let mut left = words;
    while let [text, list, after @ ..] = left {
        pieces.push(piece(alloc, text, list)?)?;
        left = after;
    }
    let rest = only_text(left);
    Ok(Texts::new(pieces, rest))
}

// `delete INDEX ?INDEX ...?`.
pub(crate) fn delete<'a>(words: &'a [String]) -> Result<Request<'a>, Fault>
    ensures { result ≡ of_several Delete (as_words words.now) }
{
    let indices = Words::new(words).ok_or(Fault::BadCommand)?;
    Ok(Request::Delete { indices })
}
