// The place that a word names, read and moved in one pass.
ghost use Rattle.std.specs.Prelude.{◌≡◌, ◌≤◌, length, take, Ok, true, is_some, IfOk, IfErr};
ghost use Rattle.rt_index.specs.Index.{index_of, moved_from};
ghost use Rattle.rt_index.specs.Reading.{fixed_of, modifiers_of, token_length};
ghost use Rattle.rt_index.specs.KeptWords.{AreWords};
ghost use Rattle.rt_stamps.specs.Outcomes.{Refuses};

use crate::Ground;
use crate::expression::{fixed_place, parse_named, resolve};
use crate::reading::{first_modifier, fixed_of, is_blank, token_length};
use crate::values::moved;
use crate::words::{WordPlaces, few_words, many_words};
use rt_stamps::Fault;
use std::alloc::Global;

// The modifiers of so few bytes keep a few words only.
const FEW_BYTES: usize = 64;

/// A place moved by the modifiers that a text is, with words of the text that are kept. `BadIndex` where it isn't
/// modifiers.
#[inline(always)]
fn moved_with<G: Ground>(
    ground: &G,
    words: &mut [WordPlaces],
    start: usize,
    text: &[u8],
) -> Result<usize, Fault>
    requires start { start ≤ length (G.widget ground.now).text }
    requires words { AreWords (G.widget ground.now).text words.old }
    ensures value { result ≡ moved_from (G.widget ground.now).text (Ok start) (modifiers_of text.now) }
    ensures within { IfOk result (λ place. place ≤ length (G.widget ground.now).text) }
{
    let mut place = start;
    let mut rest = text;
    while !is_blank(rest) {
        match first_modifier(rest) {
            Some((modifier, more)) => {
                place = moved(ground, words, place, modifier);
                rest = more;
            }
            None => return Err(Fault::BadIndex),
        }
    }
    Ok(place)
}

/// A place moved by the modifiers that a text is, which may be many: a long word is gone through once.
#[inline(never)]
fn moved_by_many<G: Ground>(ground: &G, start: usize, text: &[u8]) -> Result<usize, Fault>
    requires { start ≤ length (G.widget ground.now).text }
    ensures value { result ≡ moved_from (G.widget ground.now).text (Ok start) (modifiers_of text.now) }
    ensures within { IfOk result (λ place. place ≤ length (G.widget ground.now).text) }
{
    moved_with(ground, &mut many_words(), start, text)
}

/// A place moved by the modifiers that a text is. `BadIndex` where it isn't modifiers.
#[inline(always)]
fn moved_by<G: Ground>(ground: &G, start: usize, text: &[u8]) -> Result<usize, Fault>
    requires { start ≤ length (G.widget ground.now).text }
    ensures value { result ≡ moved_from (G.widget ground.now).text (Ok start) (modifiers_of text.now) }
    ensures within { IfOk result (λ place. place ≤ length (G.widget ground.now).text) }
{
    if text.len() <= FEW_BYTES {
        moved_with(ground, &mut few_words(), start, text)
    } else {
        moved_by_many(ground, start, text)
    }
}

/// The place that a word names, from 0 to the number of characters (Tk text manual, "Indices"):
/// `parse`, then `resolve`. What begins with a position or `end` takes no memory. `BadIndex` where
/// no base fits, or what follows it isn't modifiers; `NoneTagged` for `NAME.first` and `NAME.last`
/// where the tag is listed and no character has it; `NoMemory` only where a growth of the list of
/// modifiers behind a name was refused.
pub fn place_of_index<G: Ground>(alloc: Global, ground: &G, word: &str) -> Result<usize, Fault>
    ensures ok { IfOk result (λ place. index_of (G.widget ground.now) word.now ≡ Ok place) }
    ensures within { IfOk result (λ place. place ≤ length (G.widget ground.now).text) }
    ensures err { IfErr result (Refuses (index_of (G.widget ground.now) word.now)) }
    ensures fixed { is_some (fixed_of (take (token_length word.now) word.now)) ≡ true → result ≡ index_of (G.widget ground.now) word.now }
{
    let token = token_length(word.as_bytes());
    let (front, rest) = word.as_bytes().split_at(token);
    match fixed_of(front) {
        Some(fixed) => moved_by(ground, fixed_place(ground, fixed), rest),
        None => match parse_named(alloc, word, token) {
            Ok(expr) => resolve(&expr, ground),
            Err(fault) => Err(fault),
        },
    }
}
