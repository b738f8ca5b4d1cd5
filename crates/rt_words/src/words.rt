// The words of a line and of a list.
ghost use Rattle.std.specs.Prelude.{◌≡◌, ◌≢◌, ◌⊎◌, ℕ, ◌<◌, ◌≤◌, ◌∷◌, [], IfOk, IfErr, IsOkUnless, MatchOption, MatchResult, OnOk, String, drop, not, false, length, slice_index, slice_index_or, string_bytes, take};
ghost use Rattle.std.specs.declared.alloc.Global.{Global};
ghost use Rattle.std.specs.List.{prefix_len};
ghost use Rattle.rt_stamps.specs.Words.{as_words};
ghost use Rattle.rt_words.specs.Spelling.{is_blank};
ghost use Rattle.rt_words.specs.Spelling.{EndsWord, Spells, SpellsBy, SpellsList, IsBadlyQuoted, IsBadlyQuotedBy, IsBadlyQuotedList, escape_of, is_list_blank};
ghost use Rattle.rt_words.specs.FirstWord.{BeginsWith, ClosesAt, IsFirstWord, HasNoFirstWord, IsQuotedFront, HasNoQuotedFront, IsBracedFront, HasNoBracedFront, is_plain};
ghost use Rattle.rt_words.specs.Separators.{separates};

use crate::Spare;
use rt_stamps::Fault;
use std::alloc::Global;

/// The words of a line: bare, quoted or braced, with spaces and tabs between them. `BadQuoting`
/// where the line spells no list of words (a blank one spells the empty list), `NoMemory` where they can't be stored.
pub fn words(alloc: Global, line: &str) -> Result<Vec<String>, Fault>
    ensures ok { IfOk result (λ words. Spells line.now (as_words words.items)) }
    ensures quoting { result ≡ Err Fault.BadQuoting → IsBadlyQuoted line.now }
    ensures fault { IfErr result (λ fault. (fault ≡ Fault.NoMemory) ⊎ (fault ≡ Fault.BadQuoting)) }
{
    let mut words = Vec::new(alloc);
    let count = words_by(alloc, &mut words, Separators::OfLine, line)?;
    words.truncate(count);
    Ok(words)
}

/// The words of a line, as `words` has them, in memory that words of former lines had. `BadQuoting` where the line spells no list of
/// words, `NoMemory` where they can't be stored.
pub fn words_in<'a>(alloc: Global, spare: &'a mut Spare, line: &str) -> Result<&'a [String], Fault>
    ensures ok { IfOk result (λ words. Spells line.now (as_words words.now)) }
    ensures quoting { result ≡ Err Fault.BadQuoting → IsBadlyQuoted line.now }
    ensures fault { IfErr result (λ fault. (fault ≡ Fault.NoMemory) ⊎ (fault ≡ Fault.BadQuoting)) }
{
    spare.note(line);
    let count = words_by(alloc, &mut spare.words, Separators::OfLine, line)?;
    Ok(&spare.words[..count])
}

/// The words of a list, as of tags: those of a line, but that newlines stand between them too.
/// `BadQuoting` where the text spells no list of words, `NoMemory` where they can't be stored.
pub fn list_words(alloc: Global, list: &str) -> Result<Vec<String>, Fault>
    ensures ok { IfOk result (λ words. SpellsList list.now (as_words words.items)) }
    ensures quoting { result ≡ Err Fault.BadQuoting → IsBadlyQuotedList list.now }
    ensures fault { IfErr result (λ fault. (fault ≡ Fault.NoMemory) ⊎ (fault ≡ Fault.BadQuoting)) }
{
    let mut words = Vec::new(alloc);
    let count = words_by(alloc, &mut words, Separators::OfList, list)?;
    words.truncate(count);
    Ok(words)
}

/// Whether a byte separates the words of a line: a space or a tab.
pub fn is_blank(byte: u8) -> bool
    ensures { result ≡ is_blank byte }
{
    matches!(byte, b' ' | b'\t')
}

// What separates words: spaces and tabs in a line, and newlines too in a list.
#[derive(Clone, Copy)]
enum Separators {
    OfLine,
    OfList,
}

// Whether a character separates the words of a list.
fn is_list_blank(c: u8) -> bool
    ensures { result ≡ is_list_blank c }
{
    is_blank(c) || c == b'\n'
}

impl Separators {
    // Whether a character is one of them.
    fn separates(self, c: u8) -> bool
        ensures { result ≡ separates self c }
    {
        match self {
            Separators::OfLine => is_blank(c),
            Separators::OfList => is_list_blank(c),
        }
    }
}

// Puts the words of a text, with separators between them, in place of others: how many there are.
fn words_by(
    alloc: Global,
    words: &mut Vec<String>,
    separators: Separators,
    text: &str,
) -> Result<usize, Fault>
    ensures ok { IfOk result (λ count. SpellsBy (separates separators) text.now (as_words (take count words.new.items))) }
    ensures within { IfOk result (λ count. count ≤ length words.new.items) }
    ensures quoting { result ≡ Err Fault.BadQuoting → IsBadlyQuotedBy (separates separators) text.now }
    ensures fault { IfErr result (λ fault. (fault ≡ Fault.NoMemory) ⊎ (fault ≡ Fault.BadQuoting)) }
{
    let bytes = text.as_bytes();
    let mut count = 0;
    let mut start = gap_len(separators, bytes);
    while start < bytes.len() {
        make_blank(alloc, words, count)?;
        let end = start + first_word(separators, &text[start..], &mut words[count])?;
        count += 1;
        start = end + gap_len(separators, &bytes[end..]);
    }
    Ok(count)
}

// Makes the word at a place one without characters, in its own memory.
fn make_blank(alloc: Global, words: &mut Vec<String>, place: usize) -> Result<(), Fault>
    requires { place ≤ length words.old.items }
    ensures place { OnOk result (place < length words.new.items) }
    ensures blank { OnOk result ((other : String Global) → string_bytes (slice_index_or words.new.items place other) ≡ []) }
    ensures before { OnOk result (take place words.new.items ≡ take place words.old.items) }
    ensures fault { IsOkUnless result Fault.NoMemory }
{
    if place < words.len() {
        words[place].clear();
    } else {
        words.push(String::new(alloc))?;
    }
    Ok(())
}

// Puts the word at the front of a text, which begins with no separator, in place of an empty one: the
// length of what spells it.
fn first_word(separators: Separators, text: &str, word: &mut String) -> Result<usize, Fault>
    requires some { 0 < length text.now }
    requires dark { separates separators (slice_index text.now 0) ≡ false }
    requires blank { string_bytes word.old ≡ [] }
    ensures ok { IfOk result (λ len. IsFirstWord (separates separators) text.now len (string_bytes word.new)) }
    ensures quoting { result ≡ Err Fault.BadQuoting → HasNoFirstWord (separates separators) text.now }
    ensures fault { IfErr result (λ fault. (fault ≡ Fault.NoMemory) ⊎ (fault ≡ Fault.BadQuoting)) }
{
    let bytes = text.as_bytes();
    match bytes[0] {
        b'"' => ended(separators, bytes, quoted_word(text, word)?),
        b'{' => ended(separators, bytes, braced_word(text, word)?),
        _ => bare_word(separators, text, word),
    }
}

// The length of what spells a word, if a separator or nothing follows.
fn ended(separators: Separators, text: &[u8], len: usize) -> Result<usize, Fault>
    requires { len ≤ length text.now }
    ensures { MatchResult result (λ same. (same ≡ len) × EndsWord (separates separators) (drop len text.now))
        (λ fault. (fault ≡ Fault.BadQuoting) × (EndsWord (separates separators) (drop len text.now) → ⊥)) }
{
    match text[len..].first() {
        Some(c) if !separators.separates(*c) => Err(Fault::BadQuoting),
        _ => Ok(len),
    }
}

// Puts the quoted word at the front of a text, whatever follows it, in place of an empty one.
fn quoted_word(text: &str, word: &mut String) -> Result<usize, Fault>
    requires text { BeginsWith text.now 34 }
    requires blank { string_bytes word.old ≡ [] }
    ensures ok { IfOk result (λ len. IsQuotedFront text.now len (string_bytes word.new)) }
    ensures quoting { result ≡ Err Fault.BadQuoting → HasNoQuotedFront text.now }
    ensures fault { IfErr result (λ fault. (fault ≡ Fault.NoMemory) ⊎ (fault ≡ Fault.BadQuoting)) }
{
    let bytes = text.as_bytes();
    let mut start = 1;
    while start < bytes.len() {
        let end = start + plain_len(&bytes[start..]);
        word.push_str(&text[start..end])?;
        if end < bytes.len() && bytes[end] == b'"' {
            return Ok(end + 1);
        }
        let Some(letter) = bytes.get(end + 1) else {
            return Err(Fault::BadQuoting);
        };
        word.push(escaped(*letter)?)?;
        start = end + 2;
    }
    Err(Fault::BadQuoting)
}

// The character that a backslash and a letter stand for.
fn escaped(letter: u8) -> Result<char, Fault>
    ensures { MatchResult result (λ c. (c < 128) × (escape_of c ≡ 92 ∷ letter ∷ []))
        (λ fault. (fault ≡ Fault.BadQuoting) × ((c : ℕ) → escape_of c ≢ 92 ∷ letter ∷ [])) }
{
    match letter {
        b'n' => Ok('\n'),
        b't' => Ok('\t'),
        b'r' => Ok('\r'),
        b'\\' => Ok('\\'),
        b'"' => Ok('"'),
        _ => Err(Fault::BadQuoting),
    }
}

// Puts the braced word at the front of a text, whatever follows it, in place of an empty one.
fn braced_word(text: &str, word: &mut String) -> Result<usize, Fault>
    requires text { BeginsWith text.now 123 }
    requires blank { string_bytes word.old ≡ [] }
    ensures ok { IfOk result (λ len. IsBracedFront text.now len (string_bytes word.new)) }
    ensures quoting { result ≡ Err Fault.BadQuoting → HasNoBracedFront text.now }
    ensures fault { IfErr result (λ fault. (fault ≡ Fault.NoMemory) ⊎ (fault ≡ Fault.BadQuoting)) }
{
    let Some(len) = closing_brace(&text.as_bytes()[1..]) else {
        return Err(Fault::BadQuoting);
    };
    word.push_str(&text[1..len + 1])?;
    Ok(len + 2)
}

// The place of the brace that closes one before the text.
fn closing_brace(text: &[u8]) -> Option<usize>
    ensures { MatchOption result ((place : ℕ) → ClosesAt text.now place → ⊥) (ClosesAt text.now) }
{
    let mut depth: usize = 0;
    for (i, c) in text.iter().enumerate() {
        match *c {
            b'{' => depth += 1,
            b'}' if depth == 0 => return Some(i),
            b'}' => depth -= 1,
            _ => {}
        }
    }
    None
}

// Puts the bare word at the front of a text in place of an empty one.
fn bare_word(separators: Separators, text: &str, word: &mut String) -> Result<usize, Fault>
    requires some { 0 < length text.now }
    requires dark { separates separators (slice_index text.now 0) ≡ false }
    requires quote { slice_index text.now 0 ≢ 34 }
    requires brace { slice_index text.now 0 ≢ 123 }
    requires blank { string_bytes word.old ≡ [] }
    ensures ok { IfOk result (λ len. IsFirstWord (separates separators) text.now len (string_bytes word.new)) }
    ensures fault { IsOkUnless result Fault.NoMemory }
{
    let len = dark_len(separators, text.as_bytes());
    word.push_str(&text[..len])?;
    Ok(len)
}

// How many separators a text begins with.
fn gap_len(separators: Separators, text: &[u8]) -> usize
    ensures { result ≡ prefix_len (separates separators) text.now }
{
    match separators {
        Separators::OfLine => text.iter().take_while(|c| is_blank(**c)).count(),
        Separators::OfList => text.iter().take_while(|c| is_list_blank(**c)).count(),
    }
}

// Whether a character separates no words of a line: most lie past the space.
fn is_dark(c: u8) -> bool
    ensures { result ≡ not (is_blank c) }
{
    c > b' ' || !is_blank(c)
}

// How many characters a text has before its first separator.
fn bare_len(separators: Separators, text: &[u8]) -> usize
    ensures { result ≡ prefix_len (λ c. not (separates separators c)) text.now }
{
    match separators {
        Separators::OfLine => text.iter().take_while(|c| is_dark(**c)).count(),
        Separators::OfList => text.iter().take_while(|c| !is_list_blank(**c)).count(),
    }
}

// What `bare_len` counts, of a text that begins with no separator: its first character needs no look.
fn dark_len(separators: Separators, text: &[u8]) -> usize
    requires some { 0 < length text.now }
    requires dark { separates separators (slice_index text.now 0) ≡ false }
    ensures { result ≡ prefix_len (λ c. not (separates separators c)) text.now }
{
    1 + bare_len(separators, &text[1..])
}

// How many characters a text has before its first quote or backslash.
fn plain_len(text: &[u8]) -> usize
    ensures { result ≡ prefix_len is_plain text.now }
{
    text.iter().take_while(|c| is_plain(**c)).count()
}

fn is_plain(c: u8) -> bool
    ensures { result ≡ is_plain c }
{
    c != b'"' && c != b'\\'
}
