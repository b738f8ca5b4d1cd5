// Fields, read from bytes.
ghost use Rattle.std.specs.Prelude.{◌≡◌, ◌+◌, ◌*◌, [], ◌∷◌, ◌++◌, ◌<◌, ◌^◌, length, string_bytes, encode_utf8_all, IfNone, IfSome, IfOk, IsOkUnless};
ghost use Rattle.std.specs.List.{flat_map, AllByRecursion};
ghost use Rattle.std.specs.Int.{w16, w32, w64, byte_len};
ghost use Rattle.rt_stamps.specs.declared.fault.Fault.TheVariants.{NoMemory};
ghost use Rattle.rt_stamps.specs.Words.{as_words};
ghost use Rattle.rt_ops.specs.Versions.{layout, sites};
ghost use Rattle.rt_ops.specs.File.{number, stamp_bytes, span_bytes, spans_bytes, name_bytes, tags_bytes};
ghost use Rattle.rt_ops.specs.Decoding.{Decodes, DecodesFront, NameFits, IsNameOf, AreNames, StampFits, SpanFits, TagsFit, SpansFit, AreScalars};

use crate::{Text, Version};
use rt_stamps::{Fault, Span, Stamp};
use std::alloc::Global;
use std::str;

/// The bytes of a record's length field.
pub const LENGTH_BYTES: usize = 4;

/// A byte, and what follows it. None of no byte.
pub fn byte_at(bytes: &[u8]) -> Option<(u8, &[u8])>
    ensures none { IfNone result (bytes.now ≡ []) }
    ensures fits { IfSome result (λ found. found.0 < 2 ^ 8) }
    ensures bytes { IfSome result (λ found. bytes.now ≡ found.0 ∷ found.1.now) }
    ensures left { IfSome result (λ found. length bytes.now ≡ 1 + length found.1.now) }
{
    match bytes {
        [] => None,
        [byte, rest @ ..] => Some((*byte, rest)),
    }
}

/// A number of two bytes, and what follows it. None of fewer bytes.
pub fn u16_at(bytes: &[u8]) -> Option<(u16, &[u8])>
    ensures none { IfNone result (length bytes.now < 2) }
    ensures fits { IfSome result (λ found. found.0 < 2 ^ 16) }
    ensures bytes { IfSome result (λ found. bytes.now ≡ number w16 found.0 ++ found.1.now) }
    ensures left { IfSome result (λ found. length bytes.now ≡ 2 + length found.1.now) }
{
    let (front, rest) = bytes.split_first_chunk::<2>()?;
    Some((u16::from_be_bytes(*front), rest))
}

/// A number of four bytes, and what follows it. None of fewer bytes.
pub fn u32_at(bytes: &[u8]) -> Option<(u32, &[u8])>
    ensures none { IfNone result (length bytes.now < 4) }
    ensures fits { IfSome result (λ found. found.0 < 2 ^ 32) }
    ensures bytes { IfSome result (λ found. bytes.now ≡ number w32 found.0 ++ found.1.now) }
    ensures left { IfSome result (λ found. length bytes.now ≡ 4 + length found.1.now) }
{
    let (front, rest) = bytes.split_first_chunk::<4>()?;
    Some((u32::from_be_bytes(*front), rest))
}

/// A number of eight bytes, and what follows it. None of fewer bytes.
pub fn u64_at(bytes: &[u8]) -> Option<(u64, &[u8])>
    ensures none { IfNone result (length bytes.now < 8) }
    ensures fits { IfSome result (λ found. found.0 < 2 ^ 64) }
    ensures bytes { IfSome result (λ found. bytes.now ≡ number w64 found.0 ++ found.1.now) }
    ensures left { IfSome result (λ found. length bytes.now ≡ 8 + length found.1.now) }
{
    let (front, rest) = bytes.split_first_chunk::<8>()?;
    Some((u64::from_be_bytes(*front), rest))
}

/// The number of a site, and what follows it. None of fewer bytes than it takes.
fn site_at(version: Version, bytes: &[u8]) -> Option<(u32, &[u8])>
    ensures none { IfNone result (length bytes.now < byte_len (layout version).site) }
    ensures fits { IfSome result (λ found. found.0 < sites version) }
    ensures bytes { IfSome result (λ found. bytes.now ≡ number (layout version).site found.0 ++ found.1.now) }
    ensures left { IfSome result (λ found. length bytes.now ≡ byte_len (layout version).site + length found.1.now) }
{
    match version {
        Version::One => {
            let (site, rest) = u16_at(bytes)?;
            Some((u32::from(site), rest))
        }
        Version::Two => u32_at(bytes),
    }
}

/// A stamp, and what follows it. None of fewer bytes than it takes.
#[tactic(auto, unfolding(crate::specs::File::stamp_bytes))]
pub fn stamp_at(version: Version, bytes: &[u8]) -> Option<(Stamp, &[u8])>
    ensures none { IfNone result (length bytes.now < 8 + byte_len (layout version).site) }
    ensures fits { IfSome result (λ found. StampFits version found.0) }
    ensures bytes { IfSome result (λ found. bytes.now ≡ stamp_bytes version found.0 ++ found.1.now) }
    ensures left { IfSome result (λ found. length bytes.now ≡ 8 + byte_len (layout version).site + length found.1.now) }
{
    let (count, rest) = u64_at(bytes)?;
    let (site, rest) = site_at(version, rest)?;
    Some((Stamp { count, site }, rest))
}

/// A span, and what follows it. None of fewer bytes than it takes.
#[tactic(auto, unfolding(crate::specs::File::span_bytes))]
fn span_at(version: Version, bytes: &[u8]) -> Option<(Span, &[u8])>
    ensures none { IfNone result (length bytes.now < 16 + byte_len (layout version).site) }
    ensures fits { IfSome result (λ found. SpanFits version found.0) }
    ensures bytes { IfSome result (λ found. bytes.now ≡ span_bytes version found.0 ++ found.1.now) }
    ensures left { IfSome result (λ found. length bytes.now ≡ 16 + byte_len (layout version).site + length found.1.now) }
{
    let (site, rest) = site_at(version, bytes)?;
    let (first, rest) = u64_at(rest)?;
    let (last, rest) = u64_at(rest)?;
    Some((Span { site, first, last }, rest))
}

/// So many spans, which take all of the bytes.
fn spans_in(alloc: Global, version: Version, count: u32, bytes: &[u8]) -> Result<Vec<Span>, Fault>
    requires { length bytes.now ≡ (16 + byte_len (layout version).site) * count }
    ensures fits { IfOk result (λ spans. AllByRecursion (SpanFits version) spans.items) }
    ensures count { IfOk result (λ spans. length spans.items ≡ count) }
    ensures bytes { IfOk result (λ spans. bytes.now ≡ flat_map (span_bytes version) spans.items) }
    ensures fault { IsOkUnless result NoMemory }
{
    let mut spans = Vec::new(alloc);
    let mut left = bytes;
    for _ in 0..count {
        let (span, rest) = match span_at(version, left) {
            Some(found) => found,
            None => return Err(Fault::BadRecord),
        };
        spans.push(span)?;
        left = rest;
    }
    Ok(spans)
}

/// The spans that all of the bytes spell.
pub fn spans_of(alloc: Global, version: Version, bytes: &[u8]) -> Result<Vec<Span>, Fault>
    ensures { Decodes (spans_bytes version) (SpansFit version) (λ spans. spans.items) bytes.now result }
{
    let (count, rest) = match u32_at(bytes) {
        Some(found) => found,
        None => return Err(Fault::BadRecord),
    };
    if rest.len() as u64 != version.span_bytes() * u64::from(count) {
        return Err(Fault::BadRecord);
    }
    spans_in(alloc, version, count, rest)
}

/// A name of so many bytes at the front, and what follows it.
fn name_in(alloc: Global, length: usize, bytes: &[u8]) -> Result<(String, &[u8]), Fault>
    ensures { DecodesFront (λ name. name) (IsNameOf length) (λ found. string_bytes found.0) (λ found. found.1.now) bytes.now result }
{
    if bytes.len() < length {
        return Err(Fault::BadRecord);
    }
    let (front, rest) = bytes.split_at(length);
    match str::from_utf8(front) {
        Ok(name) => Ok((String::from_str(alloc, name)?, rest)),
        Err(_) => Err(Fault::BadRecord),
    }
}

/// The name at the front, and what follows it.
pub fn name_at(alloc: Global, bytes: &[u8]) -> Result<(String, &[u8]), Fault>
    ensures { DecodesFront name_bytes NameFits (λ found. string_bytes found.0) (λ found. found.1.now) bytes.now result }
{
    match byte_at(bytes) {
        Some((length, rest)) => name_in(alloc, usize::from(length), rest),
        None => Err(Fault::BadRecord),
    }
}

/// So many names at the front, and what follows them.
fn names_in(alloc: Global, count: u8, bytes: &[u8]) -> Result<(Vec<String>, &[u8]), Fault>
    ensures { DecodesFront (λ tags. flat_map name_bytes tags) (AreNames count) (λ found. as_words found.0.items)
        (λ found. found.1.now) bytes.now result }
{
    let mut tags = Vec::new(alloc);
    let mut left = bytes;
    for _ in 0..count {
        let (tag, rest) = name_at(alloc, left)?;
        tags.push(tag)?;
        left = rest;
    }
    Ok((tags, left))
}

/// The tags at the front, and what follows them.
pub fn tags_at(alloc: Global, bytes: &[u8]) -> Result<(Vec<String>, &[u8]), Fault>
    ensures { DecodesFront tags_bytes TagsFit (λ found. as_words found.0.items) (λ found. found.1.now) bytes.now result }
{
    match byte_at(bytes) {
        Some((count, rest)) => names_in(alloc, count, rest),
        None => Err(Fault::BadRecord),
    }
}

/// The character that a single byte of ASCII spells.
fn ascii_char(bytes: &[u8]) -> Option<char>
    ensures bytes { IfSome result (λ character. bytes.now ≡ character ∷ []) }
    ensures ascii { IfSome result (λ character. character < 128) }
{
    match bytes {
        [byte] if byte.is_ascii() => Some(char::from(*byte)),
        _ => None,
    }
}

/// The text that all of the bytes spell. A single character takes no memory.
pub fn text_of(alloc: Global, bytes: &[u8]) -> Result<Text, Fault>
    ensures { Decodes (λ text. encode_utf8_all text) AreScalars (λ text. text) bytes.now result }
{
    if let Some(character) = ascii_char(bytes) {
        return Ok(Text::of(character));
    }
    let text = match str::from_utf8(bytes) {
        Ok(text) => text,
        Err(_) => return Err(Fault::BadRecord),
    };
    Text::of_str(alloc, text)
}
