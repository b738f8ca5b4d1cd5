// The rules of names, tags, text and spans, tested.
ghost use Rattle.std.specs.Prelude.{◌≡◌, ℕ, length, string_bytes, true};
ghost use Rattle.rt_ops.specs.Rules.{is_name as is_name_of, are_tags as are_tags_of, is_text as is_text_of, are_spans as are_spans_of, each_next, is_lesser_name, is_span, is_clear_of};
ghost use Rattle.std.specs.List.{list_all};
ghost use Rattle.std.proofs.Math.Utf8.{scalar};
ghost use Rattle.rt_stamps.specs.Words.{as_words};

use rt_stamps::limits::{MOST_CHARACTERS, MOST_SPANS, MOST_TAGS};
use rt_stamps::{Span, is_name_length};
use std::cmp::Ordering;

/// Whether a name keeps the rules of a tag's name.
pub(crate) fn is_name(name: &str) -> bool
    ensures { result ≡ is_name_of name.now }
{
    is_name_length(name.len()) && name != "sel"
}

/// Whether one name is lesser by bytes than another.
fn is_lesser(one: &String, other: &String) -> bool
    ensures { result ≡ is_lesser_name (string_bytes one.now) (string_bytes other.now) }
{
    one.cmp(other) == Ordering::Less
}

/// Whether names rise strictly by bytes.
fn are_rising(tags: &[String]) -> bool
    ensures { result ≡ each_next (λ one other. is_lesser_name (string_bytes one) (string_bytes other)) tags.now }
{
    tags.is_sorted_by(|one, other| is_lesser(one, other))
}

/// Whether each name keeps the rules of a tag's name.
fn are_names(tags: &[String]) -> bool
    ensures { result ≡ list_all (λ tag. is_name_of (string_bytes tag)) tags.now }
{
    tags.iter().all(|tag| is_name(tag.as_str()))
}

/// Whether the tags of an Insert keep their rules.
pub(crate) fn are_tags(tags: &[String]) -> bool
    ensures { result ≡ are_tags_of (as_words tags.now) }
{
    tags.len() <= MOST_TAGS && are_names(tags) && are_rising(tags)
}

/// A `char` is always a scalar value of Unicode.
fn is_scalar(c: char) -> bool
    ensures { result ≡ scalar c }
{
    c <= char::MAX
}

/// Whether all characters are scalar values, which no slice says by itself.
fn are_scalars(text: &[char]) -> bool
    ensures { result ≡ list_all scalar text.now }
{
    text.iter().all(|c| is_scalar(*c))
}

/// Whether a text keeps its rules.
pub(crate) fn is_text(text: &[char]) -> bool
    ensures { result ≡ is_text_of text.now }
{
    !text.is_empty() && text.len() <= MOST_CHARACTERS && are_scalars(text)
}

/// Whether a span is of a lesser site than another, or ends before it with a count between.
fn is_clear(one: &Span, other: &Span) -> bool
    ensures { result ≡ is_clear_of one.now other.now }
{
    one.site < other.site
        || (one.site == other.site && one.last < other.first && other.first - one.last > 1)
}

/// Whether each span is clear of the next one.
fn are_clear(spans: &[Span]) -> bool
    ensures { result ≡ each_next is_clear_of spans.now }
{
    spans.is_sorted_by(|one, other| is_clear(one, other))
}

/// Whether the first count of each span is at most its last.
fn are_forward(spans: &[Span]) -> bool
    ensures { result ≡ list_all is_span spans.now }
{
    spans.iter().all(|span| span.first <= span.last)
}

/// Whether spans keep their rules.
pub(crate) fn are_spans(spans: &[Span]) -> bool
    ensures { result ≡ are_spans_of spans.now }
{
    !spans.is_empty() && spans.len() <= MOST_SPANS && are_forward(spans) && are_clear(spans)
}
