// The places that bases give and modifiers make.
ghost use Rattle.std.specs.Prelude.{◌≡◌, ◌+◌, ◌<◌, ◌≤◌, IsTrue, length};
ghost use Rattle.rt_stamps.specs.Places.{newlines, line_end};
ghost use Rattle.rt_index.specs.Values.{character_place, line_end_place, lines_forward, lines_back, keyword_place, moved, all_moved};
ghost use Rattle.rt_index.specs.KeptWords.{AreWords};

use crate::Ground;
use crate::parts::{Keyword, Modifier, Step};
use crate::words::{WordPlaces, few_words, many_words, word_end, word_start};

// So few modifiers keep a few words only.
const FEW_MODIFIERS: usize = 4;

/// The place of the newline that ends a line.
fn line_end<G: Ground>(ground: &G, line: usize) -> usize
    requires first { 1 ≤ line }
    requires last { line ≤ newlines (G.widget ground.now).text }
    ensures { result ≡ line_end (G.widget ground.now).text line }
{
    if line < ground.lines() {
        ground.line_start(line + 1) - 1
    } else {
        ground.len() - 1
    }
}

/// The place of `LINE.CHARACTER`.
pub(crate) fn character_place<G: Ground>(ground: &G, line: usize, character: usize) -> usize
    ensures value { result ≡ character_place (G.widget ground.now).text line character }
    ensures within { result ≤ length (G.widget ground.now).text }
{
    if line == 0 {
        0
    } else if line <= ground.lines() {
        let start = ground.line_start(line);
        if character == 0 {
            return start;
        }
        start.saturating_add(character).min(line_end(ground, line))
    } else {
        ground.len()
    }
}

/// The place of `LINE.end`.
pub(crate) fn line_end_place<G: Ground>(ground: &G, line: usize) -> usize
    ensures value { result ≡ line_end_place (G.widget ground.now).text line }
    ensures within { result ≤ length (G.widget ground.now).text }
{
    if line == 0 {
        0
    } else if line <= ground.lines() {
        line_end(ground, line)
    } else {
        ground.len()
    }
}

/// The place so many lines further on, at as many characters into the line, or at its newline.
fn lines_forward<G: Ground>(ground: &G, place: usize, count: usize) -> usize
    requires { place ≤ length (G.widget ground.now).text }
    ensures value { result ≡ lines_forward (G.widget ground.now).text place count }
    ensures within { result ≤ length (G.widget ground.now).text }
{
    if place == ground.len() {
        return place;
    }
    let line = ground.line_of(place);
    let character = place - ground.line_start(line);
    let line = line.saturating_add(count).min(ground.lines());
    character_place(ground, line, character)
}

/// The place so many lines back, at as many characters into the line, or at its newline.
fn lines_back<G: Ground>(ground: &G, place: usize, count: usize) -> usize
    requires { place ≤ length (G.widget ground.now).text }
    ensures value { result ≡ lines_back (G.widget ground.now).text place count }
    ensures within { result ≤ length (G.widget ground.now).text }
{
    if place < ground.len() {
        let line = ground.line_of(place);
        let character = place - ground.line_start(line);
        character_place(ground, line.saturating_sub(count).max(1), character)
    } else if count == 0 {
        place
    } else {
        ground.line_start((ground.lines() + 1).saturating_sub(count).max(1))
    }
}

/// A keyword, at the place of a character.
fn keyword_place<G: Ground>(
    ground: &G,
    words: &mut [WordPlaces],
    place: usize,
    keyword: Keyword,
) -> usize
    requires place { place < length (G.widget ground.now).text }
    requires words { AreWords (G.widget ground.now).text words.old }
    ensures value { result ≡ keyword_place (G.widget ground.now).text place keyword }
    ensures within { result ≤ length (G.widget ground.now).text }
    ensures words { AreWords (G.widget ground.now).text words.new }
{
    match keyword {
        Keyword::LineStart => ground.line_start(ground.line_of(place)),
        Keyword::LineEnd => line_end(ground, ground.line_of(place)),
        Keyword::WordStart => word_start(ground, words, place),
        Keyword::WordEnd => {
            if place + 1 < ground.len() {
                word_end(ground, words, place)
            } else {
                place
            }
        }
    }
}

/// What a modifier makes of a place, with words of the text that are kept.
#[inline(always)]
pub(crate) fn moved<G: Ground>(
    ground: &G,
    words: &mut [WordPlaces],
    place: usize,
    modifier: Modifier,
) -> usize
    requires place { place ≤ length (G.widget ground.now).text }
    requires words { AreWords (G.widget ground.now).text words.old }
    ensures value { result ≡ moved (G.widget ground.now).text place modifier }
    ensures within { result ≤ length (G.widget ground.now).text }
    ensures words { AreWords (G.widget ground.now).text words.new }
{
    match modifier {
        Modifier::Forward(count, Step::Characters) => place.saturating_add(count).min(ground.len()),
        Modifier::Back(count, Step::Characters) => place.saturating_sub(count),
        Modifier::Forward(count, Step::Lines) => lines_forward(ground, place, count),
        Modifier::Back(count, Step::Lines) => lines_back(ground, place, count),
        Modifier::To(keyword) => {
            if place < ground.len() {
                keyword_place(ground, words, place, keyword)
            } else {
                place
            }
        }
    }
}

/// What modifiers make of a place, one after another, with words of the text that are kept.
fn moved_with<G: Ground>(
    ground: &G,
    words: &mut [WordPlaces],
    place: usize,
    modifiers: &[Modifier],
) -> usize
    requires place { place ≤ length (G.widget ground.now).text }
    requires words { AreWords (G.widget ground.now).text words.old }
    ensures value { result ≡ all_moved (G.widget ground.now).text place modifiers.now }
    ensures within { result ≤ length (G.widget ground.now).text }
{
    let mut reached = place;
    for modifier in modifiers {
        reached = moved(ground, words, reached, *modifier);
    }
    reached
}

/// What many modifiers make of a place: a long word is gone through once.
#[inline(never)]
fn many_moved<G: Ground>(ground: &G, place: usize, modifiers: &[Modifier]) -> usize
    requires { place ≤ length (G.widget ground.now).text }
    ensures value { result ≡ all_moved (G.widget ground.now).text place modifiers.now }
    ensures within { result ≤ length (G.widget ground.now).text }
{
    moved_with(ground, &mut many_words(), place, modifiers)
}

/// What modifiers make of a place, one after another.
pub(crate) fn all_moved<G: Ground>(ground: &G, place: usize, modifiers: &[Modifier]) -> usize
    requires { place ≤ length (G.widget ground.now).text }
    ensures value { result ≡ all_moved (G.widget ground.now).text place modifiers.now }
    ensures within { result ≤ length (G.widget ground.now).text }
{
    if modifiers.len() <= FEW_MODIFIERS {
        moved_with(ground, &mut few_words(), place, modifiers)
    } else {
        many_moved(ground, place, modifiers)
    }
}
