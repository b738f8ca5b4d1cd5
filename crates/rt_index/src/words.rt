// The places where words begin and end.
ghost use Rattle.std.specs.Prelude.{◌≡◌, ◌+◌, ◌<◌, ◌≤◌, ℕ, List, true, IfSome, length, take, drop, reverse, slice_index};
ghost use Rattle.std.specs.List.{prefix_len};
ghost use Rattle.rt_index.specs.Characters.{is_word_character};
ghost use Rattle.rt_index.specs.Values.{word_start, word_end};
ghost use Rattle.rt_index.specs.KeptWords.{IsWord, IsWordAt, AreWords};

use crate::Ground;
use unicode::properties::{GeneralCategory, is_alphabetic};

// How many characters are read at a time.
const READ_CHARACTERS: usize = 64;

// How many long words are kept while a few modifiers are applied, and while many are.
const FEW_WORDS: usize = 4;

const MANY_WORDS: usize = 256;

/// A stretch of a text, from its first character to the place after its last one.
#[derive(Clone, Copy)]
pub(crate) struct WordPlaces {
    first: usize,
    end: usize,
}

/// Room for a few words of a text that are gone through; none is kept yet.
pub(crate) fn few_words() -> [WordPlaces; FEW_WORDS]
    ensures { (text : List ℕ) → AreWords text result }
{
    [WordPlaces { first: 0, end: 0 }; FEW_WORDS]
}

/// Room for many of them.
pub(crate) fn many_words() -> [WordPlaces; MANY_WORDS]
    ensures { (text : List ℕ) → AreWords text result }
{
    [WordPlaces { first: 0, end: 0 }; MANY_WORDS]
}

// Whether words run through a character: a letter, a digit or an underscore.
fn is_word_character(c: char) -> bool
    ensures { result ≡ is_word_character c }
{
    is_alphabetic(c) || GeneralCategory::for_char(c) == GeneralCategory::DecimalNumber || c == '_'
}

// How many of some characters in front are word characters.
fn in_front(characters: &[char]) -> usize
    ensures { result ≡ prefix_len is_word_character characters.now }
{
    characters
        .iter()
        .take_while(|c| is_word_character(**c))
        .count()
}

// How many of some characters at the back are word characters.
fn at_back(characters: &[char]) -> usize
    ensures { result ≡ prefix_len is_word_character (reverse characters.now) }
{
    characters
        .iter()
        .rev()
        .take_while(|c| is_word_character(**c))
        .count()
}

// How many of the next characters from a place on are word characters, up to the first that isn't.
fn run_after<G: Ground>(ground: &G, place: usize) -> usize
    requires { place ≤ length (G.widget ground.now).text }
    ensures value { result ≡ prefix_len is_word_character (take READ_CHARACTERS (drop place (G.widget ground.now).text)) }
    ensures few { result ≤ READ_CHARACTERS }
    ensures within { place + result ≤ length (G.widget ground.now).text }
{
    let mut buffer = ['\0'; READ_CHARACTERS];
    let read = ground.characters(place, &mut buffer);
    in_front(&buffer[..read])
}

// How many of the characters just before a place are word characters, back to the first that isn't.
fn run_before<G: Ground>(ground: &G, place: usize) -> usize
    requires { place ≤ length (G.widget ground.now).text }
    ensures value { result ≡ prefix_len is_word_character (take READ_CHARACTERS (reverse (take place (G.widget ground.now).text))) }
    ensures few { result ≤ READ_CHARACTERS }
    ensures within { result ≤ place }
{
    let mut buffer = ['\0'; READ_CHARACTERS];
    let from = place.saturating_sub(READ_CHARACTERS);
    ground.characters(from, &mut buffer);
    at_back(&buffer[..place - from])
}

/// Where the word characters just before a place begin.
fn run_start<G: Ground>(ground: &G, place: usize) -> usize
    requires { place ≤ length (G.widget ground.now).text }
    ensures { result + prefix_len is_word_character (reverse (take place (G.widget ground.now).text)) ≡ place }
{
    let mut start = place;
    let mut found = READ_CHARACTERS;
    while found == READ_CHARACTERS {
        found = run_before(ground, start);
        start -= found;
    }
    start
}

/// Where the word characters from a place on end.
fn run_end<G: Ground>(ground: &G, place: usize) -> usize
    requires { place ≤ length (G.widget ground.now).text }
    ensures { result ≡ place + prefix_len is_word_character (drop place (G.widget ground.now).text) }
{
    let mut end = place;
    let mut found = READ_CHARACTERS;
    while found == READ_CHARACTERS {
        found = run_after(ground, end);
        end += found;
    }
    end
}

/// The word of a place, if it is among the words that are kept.
fn kept_word(words: &[WordPlaces], place: usize) -> Option<WordPlaces>
    ensures { (text : List ℕ) → AreWords text words.now → IfSome result (λ word. IsWordAt text place word) }
{
    for word in words {
        if word.first <= place && place < word.end {
            return Some(*word);
        }
    }
    None
}

/// Keeps a word in place of the one that was kept first, where there is room for any.
fn keep(words: &mut [WordPlaces], word: WordPlaces)
    ensures { (text : List ℕ) → AreWords text words.old → IsWord text word → AreWords text words.new }
{
    if !words.is_empty() {
        words.rotate_right(1);
        words[0] = word;
    }
}

/// The word of a place of a word character, which is gone through if it isn't kept, and kept then.
fn word_at<G: Ground>(ground: &G, words: &mut [WordPlaces], place: usize) -> WordPlaces
    requires place { place < length (G.widget ground.now).text }
    requires character { is_word_character (slice_index (G.widget ground.now).text place) ≡ true }
    requires words { AreWords (G.widget ground.now).text words.old }
    ensures word { IsWordAt (G.widget ground.now).text place result }
    ensures words { AreWords (G.widget ground.now).text words.new }
{
    if let Some(word) = kept_word(words, place) {
        return word;
    }
    let word = WordPlaces {
        first: run_start(ground, place),
        end: run_end(ground, place),
    };
    keep(words, word);
    word
}

/// The first character of the word that holds a place. Long words are kept.
pub(crate) fn word_start<G: Ground>(ground: &G, words: &mut [WordPlaces], place: usize) -> usize
    requires place { place < length (G.widget ground.now).text }
    requires words { AreWords (G.widget ground.now).text words.old }
    ensures value { result ≡ word_start (G.widget ground.now).text place }
    ensures within { result ≤ place }
    ensures words { AreWords (G.widget ground.now).text words.new }
{
    if !is_word_character(ground.char_at(place)) {
        return place;
    }
    let found = run_before(ground, place);
    if found < READ_CHARACTERS {
        return place - found;
    }
    word_at(ground, words, place).first
}

/// The place after the last character of the word that holds a place. Long words are kept.
pub(crate) fn word_end<G: Ground>(ground: &G, words: &mut [WordPlaces], place: usize) -> usize
    requires place { place < length (G.widget ground.now).text }
    requires words { AreWords (G.widget ground.now).text words.old }
    ensures value { result ≡ word_end (G.widget ground.now).text place }
    ensures within { result ≤ length (G.widget ground.now).text }
    ensures words { AreWords (G.widget ground.now).text words.new }
{
    if !is_word_character(ground.char_at(place)) {
        return place + 1;
    }
    let found = run_after(ground, place);
    if found < READ_CHARACTERS {
        return place + found;
    }
    word_at(ground, words, place).end
}
