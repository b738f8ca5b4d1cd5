// The parts of a text, read from the left.
ghost use Rattle.std.specs.Prelude.{◌≡◌, ℕ, ◌+◌, ◌*◌, ◌^◌, ◌==◌, if◌then◌else◌, ◌<◌, ◌≤◌, ◌⊎◌, Some, None, length, map, take, drop, IfSome, IfOk, IfErr, option_map};
ghost use Rattle.std.specs.List.{prefix_len};
ghost use Rattle.std.specs.Char.{is_ascii_alphabetic};
ghost use Rattle.rt_index.specs.Grammar.{counted_modifier, turned};
ghost use Rattle.rt_index.specs.Index.{may_end, side_text, tag_of};
ghost use Rattle.rt_index.specs.Expression.{kept, kept_modifier, kept_found, kept_fixed, kept_number_at, tag_after, longest_named};
ghost use Rattle.rt_index.specs.Reading.{is_space, token_length, after_spaces, after_any, column_of, fixed_position_of, fixed_of, unit_of, keyword_of, with_unit, with_keyword, with_number, with_second_sign, first_modifier, modifiers_of};

use crate::parts::{Fixed, Keyword, Modifier, Side, Sign, Step, Tag};
use rt_stamps::Fault;
use smallvec::SmallVec;
use std::alloc::Global;

/// The modifiers of an expression. Most have few, which need no memory.
pub type Modifiers = SmallVec<Modifier, 4>;

/// Whether a token ends at a byte.
fn is_separator(byte: u8) -> bool
    ensures { result ≡ Rattle.rt_index.specs.Reading.is_separator byte }
{
    byte == b' ' || byte == b'+' || byte == b'-'
}

/// How many bytes the token at the front has.
pub(crate) fn token_length(word: &[u8]) -> usize
    ensures value { result ≡ token_length word.now }
    ensures within { result ≤ length word.now }
{
    word.iter().take_while(|byte| !is_separator(**byte)).count()
}

#[inline(always)]
fn letters(text: &[u8]) -> usize
    ensures value { result ≡ prefix_len is_ascii_alphabetic text.now }
    ensures within { result ≤ length text.now }
{
    text.iter()
        .take_while(|byte| byte.is_ascii_alphabetic())
        .count()
}

fn spaces(text: &[u8]) -> usize
    ensures value { result ≡ prefix_len is_space text.now }
    ensures within { result ≤ length text.now }
{
    text.iter().take_while(|byte| **byte == b' ').count()
}

fn after_spaces(text: &[u8]) -> &[u8]
    ensures value { result.now ≡ after_spaces text.now }
    ensures within { length result.now ≤ length text.now }
{
    let (_, rest) = text.split_at(spaces(text));
    rest
}

#[inline(always)]
fn after_any(text: &[u8]) -> &[u8]
    ensures value { result.now ≡ after_any text.now }
    ensures within { length result.now ≤ length text.now }
{
    // Mostly it isn't there, which its first letter tells.
    if text.first() != Some(&b'a') {
        return text;
    }
    let (run, rest) = text.split_at(letters(text));
    if run == b"any".as_slice() {
        after_spaces(rest)
    } else {
        text
    }
}

// A number with one digit more behind it, or the greatest one that is kept.
#[inline(always)]
fn with_digit(value: usize, digit: u8) -> usize
    ensures { result ≡ kept (10 * value + digit) }
{
    let digit = usize::from(digit);
    // What surely fits needs no look at what doesn't.
    if value < 1 << 60 {
        10 * value + digit
    } else {
        value.saturating_mul(10).saturating_add(digit)
    }
}

/// The number that the digits at the front of a text write, or the greatest one that is kept, and
/// what follows them. None where there are no digits.
#[inline(always)]
fn number_at(text: &[u8]) -> Option<(usize, &[u8])>
    ensures value { option_map (λ found. (found.0, found.1.now)) result ≡ kept_number_at text.now }
    ensures within { IfSome result (λ found. length found.1.now ≤ length text.now) }
{
    let mut value: usize = 0;
    let mut count = 0;
    while count < text.len() && text[count].is_ascii_digit() {
        value = with_digit(value, text[count] - b'0');
        count += 1;
    }
    if count == 0 {
        return None;
    }
    let (_, rest) = text.split_at(count);
    Some((value, rest))
}

#[inline(always)]
fn column_of(line: usize, text: &[u8]) -> Option<Fixed>
    ensures { (whole : ℕ) → line ≡ kept whole → result ≡ option_map kept_fixed (column_of whole text.now) }
{
    if let [b'e', b'n', b'd'] = text {
        return Some(Fixed::LineEndOf(line));
    }
    let (character, rest) = number_at(text)?;
    if rest.is_empty() {
        Some(Fixed::Character(line, character))
    } else {
        None
    }
}

#[inline(always)]
fn fixed_position_of(text: &[u8]) -> Option<Fixed>
    ensures { result ≡ option_map kept_fixed (fixed_position_of text.now) }
{
    let (line, rest) = number_at(text)?;
    match rest.split_first() {
        Some((b'.', column)) => column_of(line, column),
        _ => None,
    }
}

/// A position or `end`.
#[inline(always)]
pub(crate) fn fixed_of(text: &[u8]) -> Option<Fixed>
    ensures { result ≡ option_map kept_fixed (fixed_of text.now) }
{
    match text {
        [b'e', b'n', b'd'] => Some(Fixed::End),
        _ => fixed_position_of(text),
    }
}

/// The unit that a run of letters is.
fn unit_of(run: &[u8]) -> Option<Step>
    ensures { result ≡ unit_of run.now }
{
    // As most are written; a prefix is compared by a call.
    if let [b'c', b'h', b'a', b'r', b's'] = run {
        return Some(Step::Characters);
    }
    if run.is_empty() {
        None
    } else if b"chars".starts_with(run) || b"indices".starts_with(run) {
        Some(Step::Characters)
    } else if b"lines".starts_with(run) {
        Some(Step::Lines)
    } else {
        None
    }
}

/// The keyword that a run of letters is.
fn keyword_of(run: &[u8]) -> Option<Keyword>
    ensures { result ≡ keyword_of run.now }
{
    if run.len() < 5 {
        None
    } else if b"linestart".starts_with(run) {
        Some(Keyword::LineStart)
    } else if b"lineend".starts_with(run) {
        Some(Keyword::LineEnd)
    } else if b"wordstart".starts_with(run) {
        Some(Keyword::WordStart)
    } else if b"wordend".starts_with(run) {
        Some(Keyword::WordEnd)
    } else {
        None
    }
}

impl Sign {
    #[inline(always)]
    fn turned(self) -> Self
        ensures { result ≡ turned self }
    {
        match self {
            Sign::Plus => Sign::Minus,
            Sign::Minus => Sign::Plus,
        }
    }

    #[inline(always)]
    fn counted_modifier(self, count: usize, step: Step) -> Modifier
        ensures { result ≡ counted_modifier self count step }
    {
        match self {
            Sign::Plus => Modifier::Forward(count, step),
            Sign::Minus => Modifier::Back(count, step),
        }
    }
}

/// A unit at the front of a text, and what follows it.
#[inline(always)]
fn with_unit(sign: Sign, count: usize, text: &[u8]) -> Option<(Modifier, &[u8])>
    ensures value { option_map (λ found. (found.0, found.1.now)) result ≡ with_unit sign count text.now }
    ensures within { IfSome result (λ found. length found.1.now ≤ length text.now) }
{
    // As most expressions end: no letters are counted.
    if let [b'c', b'h', b'a', b'r', b's'] = text {
        return Some((sign.counted_modifier(count, Step::Characters), &[]));
    }
    let (run, rest) = text.split_at(letters(text));
    let step = unit_of(run)?;
    Some((sign.counted_modifier(count, step), rest))
}

/// A keyword at the front of a text, and what follows it.
#[inline(always)]
fn with_keyword(text: &[u8]) -> Option<(Modifier, &[u8])>
    ensures value { option_map (λ found. (found.0, found.1.now)) result ≡ with_keyword text.now }
    ensures within { IfSome result (λ found. length found.1.now ≤ length text.now) }
{
    let (run, rest) = text.split_at(letters(text));
    let keyword = keyword_of(run)?;
    Some((Modifier::To(keyword), rest))
}

/// A number, perhaps `any`, and a unit.
#[inline(always)]
fn with_number(sign: Sign, text: &[u8]) -> Option<(Modifier, &[u8])>
    ensures value { option_map (λ found. (found.0, found.1.now)) result ≡ option_map kept_found (with_number sign text.now) }
    ensures within { IfSome result (λ found. length found.1.now ≤ length text.now) }
{
    let (count, rest) = number_at(text)?;
    with_unit(sign, count, after_any(after_spaces(rest)))
}

/// Perhaps a second sign, and what `with_number` reads.
#[inline(always)]
fn with_second_sign(sign: Sign, text: &[u8]) -> Option<(Modifier, &[u8])>
    ensures value { option_map (λ found. (found.0, found.1.now)) result ≡ option_map kept_found (with_second_sign sign text.now) }
    ensures within { IfSome result (λ found. length found.1.now ≤ length text.now) }
{
    match text.split_first() {
        Some((b'+', rest)) => with_number(sign, rest),
        Some((b'-', rest)) => with_number(sign.turned(), rest),
        _ => with_number(sign, text),
    }
}

/// The modifier at the front of a text, and what follows it.
#[inline(always)]
pub(crate) fn first_modifier(text: &[u8]) -> Option<(Modifier, &[u8])>
    ensures value { option_map (λ found. (found.0, found.1.now)) result ≡ option_map kept_found (first_modifier text.now) }
    ensures within { IfSome result (λ found. length found.1.now < length text.now) }
{
    let found = after_spaces(text);
    match found.split_first() {
        None => None,
        Some((b'+', rest)) => with_second_sign(Sign::Plus, after_spaces(rest)),
        Some((b'-', rest)) => with_second_sign(Sign::Minus, after_spaces(rest)),
        Some(_) => {
            if found.len() < text.len() {
                with_keyword(after_any(found))
            } else {
                None
            }
        }
    }
}

/// Whether a text is spaces alone.
pub(crate) fn is_blank(text: &[u8]) -> bool
    ensures { result ≡ (length (after_spaces text.now) == 0) }
{
    match text.last() {
        // Mostly something ends it.
        Some(byte) if *byte != b' ' => false,
        _ => after_spaces(text).is_empty(),
    }
}

/// The modifiers that a text is. `BadIndex` where it isn't modifiers, and `NoMemory`.
#[inline(always)]
pub(crate) fn modifiers_of(alloc: Global, text: &[u8]) -> Result<Modifiers, Fault>
    ensures ok { IfOk result (λ modifiers. option_map (map kept_modifier) (modifiers_of text.now) ≡ Some modifiers.items) }
    ensures err { IfErr result (λ fault. (fault ≡ Fault.NoMemory) ⊎ ((fault ≡ Fault.BadIndex) × (modifiers_of text.now ≡ None))) }
{
    let mut modifiers = Modifiers::new(alloc);
    let mut rest = text;
    while !is_blank(rest) {
        let (modifier, more) = match first_modifier(rest) {
            Some(found) => found,
            None => return Err(Fault::BadIndex),
        };
        modifiers.push(modifier)?;
        rest = more;
    }
    Ok(modifiers)
}

/// `NAME.first` or `NAME.last`.
fn tag_of(text: &[u8]) -> Option<Tag>
    ensures value { result ≡ tag_of text.now }
    ensures after { IfSome result (λ tag. tag_after tag ≡ length text.now) }
{
    let side = if text.ends_with(Side::First.text()) {
        Side::First
    } else if text.ends_with(Side::Last.text()) {
        Side::Last
    } else {
        return None;
    };
    let name_len = text.len() - side.text().len();
    Some(Tag { name_len, side })
}

impl Side {
    fn text(self) -> &'static [u8]
        ensures { result.now ≡ side_text self }
    {
        match self {
            Side::First => b".first",
            Side::Last => b".last",
        }
    }
}

impl Tag {
    /// Where the modifiers begin.
    pub(crate) fn end(self) -> usize
        requires { tag_after self < 2 ^ 64 }
        ensures { result ≡ tag_after self }
    {
        self.name_len + self.side.text().len()
    }
}

/// Whether a base may end before a text.
fn may_end(text: &[u8]) -> bool
    ensures { result ≡ may_end text.now }
{
    match text.first() {
        Some(byte) => is_separator(*byte),
        None => true,
    }
}

/// The end of a tag that a front of a word is, if a base may end there.
fn tag_at(word: &[u8], end: usize) -> Option<Tag>
    requires { end ≤ length word.now }
    ensures value { result ≡ (if may_end (drop end word.now) then tag_of (take end word.now) else None) }
    ensures after { IfSome result (λ tag. tag_after tag ≡ end) }
{
    let (front, rest) = word.split_at(end);
    if may_end(rest) { tag_of(front) } else { None }
}

/// The longest front of a word that may be the end of a tag.
pub(crate) fn longest_tag(word: &[u8]) -> Option<Tag>
    ensures value { result ≡ longest_named word.now (length word.now) }
    ensures within { IfSome result (λ tag. tag_after tag ≤ length word.now) }
{
    let mut end = word.len();
    while end > 0 {
        match tag_at(word, end) {
            Some(tag) => return Some(tag),
            None => end -= 1,
        }
    }
    None
}
