// Index expressions, parsed and resolved.
ghost use Rattle.std.specs.Prelude.{◌≡◌, ◌<◌, ◌≤◌, ◌^◌, ◌⊎◌, length, take, Some, None, is_some, option_map, IfOk, IfErr, OnOk};
ghost use Rattle.rt_index.specs.Expression.{NamesAreWhole, base_index, is_always_mark, is_possible, kept_fixed, listed_place, named_after};
ghost use Rattle.rt_index.specs.Reading.{fixed_of, token_length};
ghost use Rattle.rt_index.specs.Index.{index_of, fixed_place, IsNeverIndex, MayBeIndex};

use crate::Ground;
use crate::parts::{Base, Fixed, Side, Tag};
use crate::reading::{Modifiers, fixed_of, longest_tag, modifiers_of, token_length};
use crate::values::{all_moved, character_place, line_end_place};
use rt_stamps::{Fault, is_name_length};
use std::alloc::Global;
use std::marker::Model;

/// An index expression, parsed. It borrows its word, and contracts see it as the bytes of that.
#[derive(Drop)]
pub struct Expr<'a> {
    word: &'a str,
    base: Base,
    modifiers: Modifiers,
}

impl<'a> Model for Expr<'a> {
    ghost use Rattle.std.specs.Prelude.{ℕ, List};
    ghost use Rattle.rt_index.specs.Expression.{IsParsed};

    ghost Value = { List ℕ };

    ghost view = { λ e. e.word.now };

    ghost invariant = { λ e. IsParsed e.word.now e.base e.modifiers.items };
}

/// Whether a word is a position or `end`, with nothing after it. It takes no memory.
pub fn is_fixed(word: &str) -> bool
    ensures { result ≡ is_some (fixed_of word.now) }
{
    fixed_of(word.as_bytes()).is_some()
}

/// Whether each widget has a mark of a name.
fn is_always_mark(name: &[u8]) -> bool
    ensures { result ≡ is_always_mark name.now }
{
    name == b"insert".as_slice() || name == b"current".as_slice()
}

/// Whether some widget has a place for a base: a mark that modifiers follow, or a listed tag where
/// the token is no mark.
fn is_possible(token: &[u8], fits: bool, tag: Option<Tag>) -> bool
    ensures { result ≡ is_possible token.now fits tag }
{
    if fits && is_name_length(token.len()) {
        return true;
    }
    match tag {
        Some(tag) => is_name_length(tag.name_len) && !is_always_mark(token),
        None => false,
    }
}

/// Where the modifiers of a base begin that is no position and not `end`.
fn named_after(token: usize, tag: Option<Tag>) -> usize
    requires { named_after token tag < 2 ^ 64 }
    ensures { result ≡ named_after token tag }
{
    match tag {
        Some(tag) => tag.end(),
        None => token,
    }
}

/// An expression that begins with a position or `end`.
fn parse_fixed(alloc: Global, word: &str, token: usize, fixed: Fixed) -> Result<Expr<'_>, Fault>
    requires token { token ≡ token_length word.now }
    requires fixed { option_map kept_fixed (fixed_of (take token word.now)) ≡ Some fixed }
    ensures word { IfOk result (λ expr. expr ≡ word.now) }
    ensures possible { OnOk result (MayBeIndex word.now) }
    ensures fault { IfErr result (λ fault. (fault ≡ Fault.NoMemory) ⊎ ((fault ≡ Fault.BadIndex) × IsNeverIndex word.now)) }
{
    let (_, rest) = word.as_bytes().split_at(token);
    let modifiers = modifiers_of(alloc, rest)?;
    let base = Base::AtPlace(fixed);
    Ok(Expr {
        word,
        base,
        modifiers,
    })
}

/// An expression that begins with a mark or an end of a tag.
pub(crate) fn parse_named(alloc: Global, word: &str, token: usize) -> Result<Expr<'_>, Fault>
    requires token { token ≡ token_length word.now }
    requires named { fixed_of (take token word.now) ≡ None }
    ensures word { IfOk result (λ expr. expr ≡ word.now) }
    ensures possible { OnOk result (MayBeIndex word.now) }
    ensures fault { IfErr result (λ fault. (fault ≡ Fault.NoMemory) ⊎ ((fault ≡ Fault.BadIndex) × IsNeverIndex word.now)) }
{
    let bytes = word.as_bytes();
    let (front, _) = bytes.split_at(token);
    let tag = longest_tag(bytes);
    let end = named_after(token, tag);
    let (_, rest) = bytes.split_at(end);
    let modifiers = match modifiers_of(alloc, rest) {
        Ok(modifiers) => modifiers,
        Err(fault) => return Err(fault),
    };
    let fits = end == token;
    if !is_possible(front, fits, tag) {
        return Err(Fault::BadIndex);
    }
    let base = Base::Named {
        token_len: token,
        modifiers_follow: fits,
        tag,
    };
    Ok(Expr {
        word,
        base,
        modifiers,
    })
}

/// Parses a word as an index expression (Tk text manual, "Indices"). `BadIndex` for just the words
/// that are `BadIndex` whatever marks and tags there are; `NoMemory` where a growth of the list of
/// modifiers was refused.
pub fn parse(alloc: Global, word: &str) -> Result<Expr<'_>, Fault>
    ensures word { IfOk result (λ expr. expr ≡ word.now) }
    ensures possible { OnOk result (MayBeIndex word.now) }
    ensures fault { IfErr result (λ fault. (fault ≡ Fault.NoMemory) ⊎ ((fault ≡ Fault.BadIndex) × IsNeverIndex word.now)) }
{
    let token = token_length(word.as_bytes());
    let (front, _) = word.as_bytes().split_at(token);
    match fixed_of(front) {
        Some(fixed) => parse_fixed(alloc, word, token, fixed),
        None => parse_named(alloc, word, token),
    }
}

/// The place of a position or of `end`.
pub(crate) fn fixed_place<G: Ground>(ground: &G, fixed: Fixed) -> usize
    ensures value { result ≡ fixed_place (G.widget ground.now).text fixed }
    ensures within { result ≤ length (G.widget ground.now).text }
{
    match fixed {
        Fixed::Character(line, character) => character_place(ground, line, character),
        Fixed::LineEndOf(line) => line_end_place(ground, line),
        Fixed::End => ground.len(),
    }
}

/// The place of an end of a tag.
fn tag_end<G: Ground>(ground: &G, name: &str, side: Side) -> Result<usize, Fault>
    ensures value { result ≡ listed_place side ((G.widget ground.now).tags name.now) }
    ensures within { IfOk result (λ place. place ≤ length (G.widget ground.now).text) }
{
    if !ground.has_tag(name) {
        return Err(Fault::BadIndex);
    }
    let place = match side {
        Side::First => ground.tag_first(name),
        Side::Last => ground.tag_last(name),
    };
    place.ok_or(Fault::NoneTagged)
}

/// The place of a base.
fn base_place<G: Ground>(ground: &G, word: &str, base: Base) -> Result<usize, Fault>
    requires { NamesAreWhole word.now base }
    ensures value { result ≡ base_index (G.widget ground.now) word.now base }
    ensures within { IfOk result (λ place. place ≤ length (G.widget ground.now).text) }
{
    match base {
        Base::AtPlace(fixed) => Ok(fixed_place(ground, fixed)),
        Base::Named {
            token_len: token,
            modifiers_follow: fits,
            tag,
        } => match ground.mark(&word[..token]) {
            Some(place) if fits => Ok(place),
            Some(_) => Err(Fault::BadIndex),
            None => match tag {
                Some(tag) => tag_end(ground, &word[..tag.name_len], tag.side),
                None => Err(Fault::BadIndex),
            },
        },
    }
}

/// The place of an index expression, from 0 to the number of characters (Tk text manual,
/// "Indices"). `BadIndex` where no base fits, or what follows it isn't modifiers; `NoneTagged`
/// for `NAME.first` and `NAME.last` where the tag is listed and no character has it.
pub fn resolve<G: Ground>(expr: &Expr<'_>, ground: &G) -> Result<usize, Fault>
    ensures place { result ≡ index_of (G.widget ground.now) expr.now }
    ensures within { IfOk result (λ place. place ≤ length (G.widget ground.now).text) }
{
    let place = base_place(ground, expr.word, expr.base)?;
    Ok(all_moved(ground, place, expr.modifiers.as_slice()))
}
