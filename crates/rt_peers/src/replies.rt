// Replies of no word, one word, numbers and positions.
ghost use Rattle.std.specs.Prelude.{◌≡◌, ◌∷◌, ◌++◌, [], Ok, Err, map, string_bytes, IfOk, IsOkUnless, MatchResult, OnOk};
ghost use Rattle.std.specs.Fmt.{decimal, signed_decimal};
ghost use Rattle.rt_stamps.specs.Places.{text_of_position};
ghost use Rattle.rt_peers.specs.Options.{number_word};
ghost use Rattle.rt_peers.specs.ViewStep.{one_word, text_of_bool};

use crate::reply::Reply;
use itoa::Buffer;
use rt_stamps::{Fault, Position};
use std::alloc::{AllocError, Global};

// How many bytes the text of a position takes in a text of ordinary length. A longer one takes more memory.
const POSITION_BYTES: usize = 24;

// A reply without words.
pub(crate) fn no_words(alloc: Global) -> Reply
    ensures { result ≡ [] }
{
    Reply {
        words: Vec::new(alloc),
    }
}

// What a change answers: a reply without words, or why it was refused.
pub(crate) fn changed(alloc: Global, outcome: Result<(), Fault>) -> Result<Reply, Fault>
    ensures { MatchResult outcome (λ _. result ≡ Ok []) (λ fault. result ≡ Err fault) }
{
    match outcome {
        Ok(()) => Ok(no_words(alloc)),
        Err(fault) => Err(fault),
    }
}

// A reply of one word.
pub(crate) fn one_word(alloc: Global, word: String) -> Result<Reply, Fault>
    ensures ok { IfOk result (λ reply. reply ≡ string_bytes word ∷ []) }
    ensures err { IsOkUnless result Fault.NoMemory }
{
    let mut words = Vec::with_capacity(alloc, 1)?;
    words.push(word)?;
    Ok(Reply { words })
}

// Truth, as it is written.
pub(crate) fn truth(alloc: Global, holds: bool) -> Result<Reply, Fault>
    ensures ok { IfOk result (λ reply. reply ≡ one_word (text_of_bool holds)) }
    ensures err { IsOkUnless result Fault.NoMemory }
{
    let text = if holds { "1" } else { "0" };
    one_word(alloc, String::from_str(alloc, text)?)
}

// A reply of a number, or of the empty word without one.
pub(crate) fn number_reply(alloc: Global, number: Option<usize>) -> Result<Reply, Fault>
    ensures ok { IfOk result (λ reply. reply ≡ one_word (number_word number)) }
    ensures err { IsOkUnless result Fault.NoMemory }
{
    match number {
        Some(number) => {
            let mut digits = Buffer::new();
            one_word(alloc, String::from_str(alloc, digits.format(number))?)
        }
        None => one_word(alloc, String::new(alloc)),
    }
}

// A reply of numbers.
pub(crate) fn numbers(alloc: Global, values: &[i64]) -> Result<Reply, Fault>
    ensures ok { IfOk result (λ reply. reply ≡ map signed_decimal values.now) }
    ensures err { IsOkUnless result Fault.NoMemory }
{
    let mut words = Vec::with_capacity(alloc, values.len())?;
    for value in values {
        words.push(value.to_string(alloc)?)?;
    }
    Ok(Reply { words })
}

// Adds a number in decimal. One of a single digit, as those of the first lines are, is a character.
#[inline(always)]
fn push_number(text: &mut String, digits: &mut Buffer, number: usize) -> Result<(), AllocError>
    ensures { OnOk result (string_bytes text.new ≡ string_bytes text.old ++ decimal number) }
{
    if number < 10 {
        text.push(char::from(b'0' + number as u8))
    } else {
        text.push_str(digits.format(number))
    }
}

// The text of a position.
pub(crate) fn position_text(alloc: Global, position: Position) -> Result<String, Fault>
    ensures ok { IfOk result (λ text. string_bytes text ≡ text_of_position position) }
    ensures err { IsOkUnless result Fault.NoMemory }
{
    let mut digits = Buffer::new();
    let mut text = String::with_capacity(alloc, POSITION_BYTES)?;
    push_number(&mut text, &mut digits, position.line)?;
    text.push('.')?;
    push_number(&mut text, &mut digits, position.character)?;
    Ok(text)
}

// A reply of positions.
pub(crate) fn positions_reply(alloc: Global, positions: &[Position]) -> Result<Reply, Fault>
    ensures ok { IfOk result (λ reply. reply ≡ map text_of_position positions.now) }
    ensures err { IsOkUnless result Fault.NoMemory }
{
    let mut words = Vec::with_capacity(alloc, positions.len())?;
    for position in positions {
        words.push(position_text(alloc, *position)?)?;
    }
    Ok(Reply { words })
}
