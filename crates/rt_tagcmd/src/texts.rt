// The text values of a stretch.
ghost use Rattle.std.specs.Prelude.{◌≡◌, ℕ, ◌+◌, ◌-◌, ◌<◌, ◌≤◌, List, IsOkUnless, IfOk, encode_utf8_all, false, length, slice_index_or, true};
ghost use Rattle.std.specs.List.{list_any};
ghost use Rattle.std.specs.List.Sorted.{IsNonDecreasingBy};
ghost use Rattle.rt_tagcmd.specs.Elements.{ends_text, element_at, is_at_place, text_values};
ghost use Rattle.rt_tagcmd.specs.Stretches.{EndsWhere};
ghost use Rattle.rt_stamps.specs.Places.{is_newline};
ghost use Rattle.rt_text.specs.Ranges.{text_between};

use crate::Key;
use crate::placed::Placed;
use rt_search::Part;
use rt_stamps::Fault;
use rt_store::TextStore;
use std::alloc::Global;

/// The least place behind another where an element stands, or an end if there is none before it.
fn next_place(others: &[Placed], place: usize, end: usize) -> usize
    requires rise { IsNonDecreasingBy (λ e. e.place) others.now }
    requires before { place < end }
    ensures { EndsWhere (λ p. list_any (is_at_place p) others.now) place result end }
{
    let next = others.partition_point(|other| other.place() <= place);
    match others.get(next) {
        Some(other) => other.place().min(end),
        None => end,
    }
}

/// The number of characters up to behind the first newline from one of them on, or up to an end if there is none before
/// it.
fn line_len(chars: &[char], start: usize, end: usize) -> usize
    requires before { start < end }
    requires within { end ≤ length chars.now }
    ensures { EndsWhere (λ k. is_newline (slice_index_or chars.now (k - 1) 0)) start result end }
{
    let mut len = start + 1;
    while len < end && chars[len - 1] != '\n' {
        len += 1;
    }
    len
}

/// Where a text value ends that begins at a place of a stretch, whose characters from `from` on these are.
fn text_end(chars: &[char], from: usize, to: usize, others: &[Placed], start: usize) -> usize
    requires rise { IsNonDecreasingBy (λ e. e.place) others.now }
    requires size { from + length chars.now ≡ to }
    requires inside { (from ≤ start) × (start < to) }
    ensures ends { (text : List ℕ) → text_between text from to ≡ chars.now → EndsWhere (ends_text text others.now to) start result to }
    ensures behind { start < result }
    ensures within { result ≤ to }
{
    let next = next_place(others, start, to);
    from + line_len(chars, start - from, next - from)
}

/// A text value of some characters that begins at a place.
fn text_value(alloc: Global, chars: &[char], place: usize) -> Result<Placed, Fault>
    ensures ok { IfOk result (λ value. value ≡ element_at Key.Text (encode_utf8_all chars.now) place) }
    ensures err { IsOkUnless result Fault.NoMemory }
{
    let mut text = String::new(alloc);
    for c in chars {
        text.push(*c)?;
    }
    Ok(Placed::new(Key::Text, text, place))
}

/// The text values of a stretch of these characters, between other elements, whose places rise. `NoMemory` is its only
/// fault.
pub(crate) fn values_of(
    alloc: Global,
    chars: &[char],
    from: usize,
    to: usize,
    others: &[Placed],
) -> Result<Vec<Placed>, Fault>
    requires rise { IsNonDecreasingBy (λ e. e.place) others.now }
    requires size { from + length chars.now ≡ to }
    ensures ok { IfOk result (λ values. (text : List ℕ) → text_between text from to ≡ chars.now
        → values.items ≡ text_values text others.now from to) }
    ensures err { IsOkUnless result Fault.NoMemory }
{
    let mut values = Vec::new(alloc);
    let mut start = from;
    while start < to {
        let end = text_end(chars, from, to, others, start);
        values.push(text_value(alloc, &chars[start - from..end - from], start)?)?;
        start = end;
    }
    Ok(values)
}

/// The characters from a place up to before another.
fn characters<S: TextStore>(
    alloc: Global,
    text: &Part<'_, S>,
    from: usize,
    to: usize,
) -> Result<Vec<char>, Fault>
    requires from { from ≤ to }
    requires to { to ≤ length text.now }
    ensures ok { IfOk result (λ chars. chars.items ≡ text_between text.now from to) }
    ensures size { IfOk result (λ chars. from + length chars.items ≡ to) }
    ensures err { IsOkUnless result Fault.NoMemory }
{
    let mut chars = vec![in alloc; '\0'; to - from]?;
    text.characters(from, &mut chars);
    Ok(chars)
}

/// The text values of the stretch from one place up to before another, between other elements, whose places rise. The
/// characters are read once, in one piece. `NoMemory` is its only fault.
pub(crate) fn texts_in<S: TextStore>(
    alloc: Global,
    text: &Part<'_, S>,
    others: &[Placed],
    from: usize,
    to: usize,
) -> Result<Vec<Placed>, Fault>
    requires rise { IsNonDecreasingBy (λ e. e.place) others.now }
    requires to { to ≤ length text.now }
    ensures ok { IfOk result (λ values. values.items ≡ text_values text.now others.now from to) }
    ensures err { IsOkUnless result Fault.NoMemory }
{
    if to <= from {
        return Ok(Vec::new(alloc));
    }
    let chars = characters(alloc, text, from, to)?;
    values_of(alloc, &chars, from, to, others)
}
