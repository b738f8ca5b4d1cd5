// Ranges of places.
ghost use Rattle.rt_lines.specs.Stretches.{part};
ghost use Rattle.std.specs.Prelude.{◌≡◌, ◌≤◌, ◌⊎◌, ◌++◌, All, IfOk, IfErr, IsOkUnless, OnOk, map, length, string_bytes, encode_utf8_all};
ghost use Rattle.rt_stamps.specs.declared.limits.TheConstants.{MOST_CELLS};
ghost use Rattle.rt_stamps.specs.Outcomes.{first_of};
ghost use Rattle.rt_stamps.specs.Words.{as_words};
ghost use Rattle.rt_store.specs.Cells.{text_of};
ghost use Rattle.rt_text.specs.Index.{index_check, place_at_index};
ghost use Rattle.rt_text.specs.Ranges.{text_between, ranges_of, texts_of};

use rt_index::{Ground, place_of_index};
use rt_lines::Stretch;
use rt_plans::Range;
use rt_stamps::Fault;
use rt_store::TextStore;
use std::alloc::Global;

// How many characters are read at a time.
const READ_CHARACTERS: usize = 256;

// The places of indices.
fn places_of<G: Ground>(alloc: Global, ground: &G, indices: &[String]) -> Result<Vec<usize>, Fault>
    ensures ok { IfOk result (λ places. places.items ≡ map (place_at_index (G.widget ground.now)) (as_words indices.now)) }
    ensures checked { IfOk result (λ places. first_of (map (index_check (G.widget ground.now)) (as_words indices.now)) ≡ None) }
    ensures within { IfOk result (λ places. All (λ place. place ≤ length (G.widget ground.now).text) places.items) }
    ensures err { IfErr result (λ fault. (fault ≡ Fault.NoMemory)
        ⊎ (first_of (map (index_check (G.widget ground.now)) (as_words indices.now)) ≡ Some fault)) }
{
    let mut places = Vec::new(alloc);
    for index in indices {
        places.push(place_of_index(alloc, ground, index)?)?;
    }
    Ok(places)
}

// The ranges of places in pairs.
fn ranges_of(alloc: Global, places: &[usize]) -> Result<Vec<Range>, Fault>
    requires { All (λ place. place ≤ MOST_CELLS) places.now }
    ensures ok { IfOk result (λ ranges. ranges.items ≡ ranges_of places.now) }
    ensures err { IsOkUnless result Fault.NoMemory }
{
    let mut ranges = Vec::new(alloc);
    let mut i = 0;
    while places.len() - i > 1 {
        ranges.push(Range {
            from: places[i],
            to: places[i + 1],
        })?;
        i += 2;
    }
    if i < places.len() {
        ranges.push(Range {
            from: places[i],
            to: places[i] + 1,
        })?;
    }
    Ok(ranges)
}

/// The ranges of indices in pairs.
pub(crate) fn ranges_at<G: Ground>(
    alloc: Global,
    ground: &G,
    indices: &[String],
) -> Result<Vec<Range>, Fault>
    ensures ok { IfOk result (λ ranges. ranges.items ≡ ranges_of (map (place_at_index (G.widget ground.now)) (as_words indices.now))) }
    ensures checked { IfOk result (λ ranges. first_of (map (index_check (G.widget ground.now)) (as_words indices.now)) ≡ None) }
    ensures err { IfErr result (λ fault. (fault ≡ Fault.NoMemory)
        ⊎ (first_of (map (index_check (G.widget ground.now)) (as_words indices.now)) ≡ Some fault)) }
{
    let places = places_of(alloc, ground, indices)?;
    ranges_of(alloc, &places)
}

// Puts characters behind a text.
fn push_all(text: &mut String, characters: &[char]) -> Result<(), Fault>
    ensures ok { OnOk result (string_bytes text.new ≡ string_bytes text.old ++ encode_utf8_all characters.now) }
    ensures err { IsOkUnless result Fault.NoMemory }
{
    for c in characters {
        text.push(*c)?;
    }
    Ok(())
}

// The text of a store from a place up to before another, read stretch by stretch.
fn text_between<S: TextStore>(
    alloc: Global,
    store: &S,
    from: usize,
    to: usize,
) -> Result<String, Fault>
    ensures ok { IfOk result (λ text. string_bytes text ≡ encode_utf8_all (text_between (text_of (S.list store.now)) from to)) }
    ensures err { IsOkUnless result Fault.NoMemory }
{
    let mut text = String::new(alloc);
    let mut buffer = ['\0'; READ_CHARACTERS];
    let end = to.min(store.visible()).max(from);
    let mut place = from;
    while place < end {
        let read = store.characters(place, &mut buffer).min(end - place);
        push_all(&mut text, &buffer[..read])?;
        place += read;
    }
    Ok(text)
}

/// The text of a stretch from a place of it up to before another.
pub(crate) fn shown_between<S: TextStore>(
    alloc: Global,
    store: &S,
    stretch: Stretch,
    from: usize,
    to: usize,
) -> Result<String, Fault>
    ensures ok { IfOk result (λ text. string_bytes text
        ≡ encode_utf8_all (text_between (part stretch (text_of (S.list store.now))) from to)) }
    ensures err { IsOkUnless result Fault.NoMemory }
{
    let begin = stretch.begin.saturating_add(from);
    let end = stretch.begin.saturating_add(to).min(stretch.end);
    text_between(alloc, store, begin, end)
}

/// The texts of ranges of a stretch that aren't empty.
pub(crate) fn texts_of<S: TextStore>(
    alloc: Global,
    store: &S,
    stretch: Stretch,
    ranges: &[Range],
) -> Result<Vec<String>, Fault>
    requires { (stretch.begin ≤ stretch.end) × (stretch.end ≤ length (text_of (S.list store.now))) }
    ensures ok { IfOk result (λ texts. as_words texts.items ≡ texts_of (part stretch (text_of (S.list store.now))) ranges.now) }
    ensures err { IsOkUnless result Fault.NoMemory }
{
    let mut texts = Vec::new(alloc);
    let visible = stretch.end - stretch.begin;
    for range in ranges {
        if range.from < range.to.min(visible) {
            texts.push(shown_between(alloc, store, stretch, range.from, range.to)?)?;
        }
    }
    Ok(texts)
}
