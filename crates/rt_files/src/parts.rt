// The words of a line, each written after a space.
ghost use Rattle.std.specs.Prelude.{◌+◌, ◌∷◌, ◌++◌, flat_map, string_bytes};
ghost use Rattle.std.specs.Fmt.{decimal};
ghost use Rattle.rt_words.specs.Writing.{text_of_word};
ghost use Rattle.rt_stamps.specs.Written.{WritesText};
ghost use Rattle.rt_files.specs.Parts.{text_of_part};
ghost use Rattle.rt_files.specs.Shown.{text_of_stamp, text_of_span};

use itoa::Buffer;
use rt_stamps::{Fault, Sink, Span, Stamp, write_all};
use rt_words::{write_text, write_word};

/// A word of a line.
#[derive(Clone, Copy)]
pub enum Part<'a> {
    /// Written as they are.
    Letters(&'a [u8]),
    /// Written in decimal.
    Number(u64),
    /// Written as `COUNT.SITE`.
    Stamp(Stamp),
    /// Written as `SITE:FIRST-LAST`.
    Span(Span),
    /// Written as a word of a script.
    Name(&'a str),
    /// Written as a word of a script.
    Text(&'a [char]),
}

/// Writes the parts, a space before each. `WriteFault` after a failed write, and then a front of them was
/// written.
pub fn write_parts<W: Sink>(parts: &[Part<'_>], out: &mut W) -> Result<(), Fault>
    ensures { WritesText (W.stream out.old) (W.stream out.new) result (flat_map (λ part. 32 ∷ text_of_part part) parts.now) }
{
    for part in parts {
        write_spaced(*part, out)?;
    }
    Ok(())
}

/// Writes the spans, a space before each. `WriteFault` after a failed write, and then a front of them was
/// written.
pub(crate) fn write_spans<W: Sink>(spans: &[Span], out: &mut W) -> Result<(), Fault>
    ensures { WritesText (W.stream out.old) (W.stream out.new) result (flat_map (λ span. 32 ∷ text_of_span span) spans.now) }
{
    for span in spans {
        write_spaced(Part::Span(*span), out)?;
    }
    Ok(())
}

/// Writes the names as words, a space before each. `WriteFault` after a failed write, and then a front of
/// them was written.
pub fn write_names<W: Sink>(names: &[String], out: &mut W) -> Result<(), Fault>
    ensures { WritesText (W.stream out.old) (W.stream out.new) result (flat_map (λ name. 32 ∷ text_of_word (string_bytes name)) names.now) }
{
    for name in names {
        write_spaced(Part::Name(name), out)?;
    }
    Ok(())
}

fn write_spaced<W: Sink>(part: Part<'_>, out: &mut W) -> Result<(), Fault>
    ensures { WritesText (W.stream out.old) (W.stream out.new) result (32 ∷ text_of_part part.entry) }
{
    write_all(out, b" ")?;
    write_part(part, out)
}

fn write_part<W: Sink>(part: Part<'_>, out: &mut W) -> Result<(), Fault>
    ensures { WritesText (W.stream out.old) (W.stream out.new) result (text_of_part part.entry) }
{
    match part {
        Part::Letters(letters) => write_all(out, letters),
        Part::Number(number) => write_number(number, out),
        Part::Stamp(stamp) => write_stamp(stamp, out),
        Part::Span(span) => write_span(span, out),
        Part::Name(name) => write_word(name, out),
        Part::Text(text) => write_text(text, out),
    }
}

fn write_stamp<W: Sink>(stamp: Stamp, out: &mut W) -> Result<(), Fault>
    ensures { WritesText (W.stream out.old) (W.stream out.new) result (text_of_stamp stamp) }
{
    write_number(stamp.count, out)?;
    write_behind(b'.', stamp.site as u64, out)
}

fn write_span<W: Sink>(span: Span, out: &mut W) -> Result<(), Fault>
    ensures { WritesText (W.stream out.old) (W.stream out.new) result (text_of_span span) }
{
    write_number(span.site as u64, out)?;
    write_range(span.first, span.last, out)
}

fn write_range<W: Sink>(first: u64, last: u64, out: &mut W) -> Result<(), Fault>
    ensures { WritesText (W.stream out.old) (W.stream out.new) result (58 ∷ decimal first ++ (45 ∷ decimal last)) }
{
    write_behind(b':', first, out)?;
    write_behind(b'-', last, out)
}

// A mark, and a number.
fn write_behind<W: Sink>(mark: u8, number: u64, out: &mut W) -> Result<(), Fault>
    ensures { WritesText (W.stream out.old) (W.stream out.new) result (mark ∷ decimal number) }
{
    write_all(out, &[mark])?;
    write_number(number, out)
}

fn write_number<W: Sink>(number: u64, out: &mut W) -> Result<(), Fault>
    ensures { WritesText (W.stream out.old) (W.stream out.new) result (decimal number) }
{
    let mut buffer = Buffer::new();
    write_all(out, buffer.format(number).as_bytes())
}
