// Words, written.
ghost use Rattle.std.specs.Prelude.{◌≡◌, ◌+◌, ◌<◌, ◌∷◌, ◌++◌, [], flat_map, encode_utf8, encode_utf8_all};
ghost use Rattle.std.specs.List.{list_any};
ghost use Rattle.rt_words.specs.Spelling.{escape_of};
ghost use Rattle.rt_words.specs.Writing.{needs_quotes, text_of_word};
ghost use Rattle.rt_stamps.specs.Written.{WritesText};

use rt_stamps::{Fault, Sink, write_all};

/// Writes a word: bare, or in quotes where it is empty or has a space, a tab, a newline, a carriage
/// return, a quote, a backslash or a brace. `WriteFault` where a write fails or takes nothing; a
/// front of the word was then written.
pub fn write_word<W: Sink>(word: &str, out: &mut W) -> Result<(), Fault>
    ensures { WritesText (W.stream out.old) (W.stream out.new) result (text_of_word word.now) }
{
    let bytes = word.as_bytes();
    if bytes.is_empty() || has_quoted(bytes) {
        write_quoted(bytes, out)
    } else {
        write_all(out, bytes)
    }
}

/// Whether a word that isn't empty is written in quotes.
pub fn has_quoted(word: &[u8]) -> bool
    ensures { result ≡ list_any needs_quotes word.now }
{
    word.iter().any(|byte| needs_quotes(*byte))
}

// Most letters and all digits lie between the quote and the backslash.
fn needs_quotes(byte: u8) -> bool
    ensures { result ≡ needs_quotes byte }
{
    (byte <= b'"' || byte >= b'\\')
        && matches!(
            byte,
            b' ' | b'\t' | b'\n' | b'\r' | b'"' | b'\\' | b'{' | b'}'
        )
}

fn write_quoted<W: Sink>(word: &[u8], out: &mut W) -> Result<(), Fault>
    ensures { WritesText (W.stream out.old) (W.stream out.new) result (34 ∷ flat_map escape_of word.now ++ (34 ∷ [])) }
{
    write_all(out, b"\"")?;
    write_all_escaped(word, out)?;
    write_all(out, b"\"")
}

fn write_all_escaped<W: Sink>(word: &[u8], out: &mut W) -> Result<(), Fault>
    ensures { WritesText (W.stream out.old) (W.stream out.new) result (flat_map escape_of word.now) }
{
    for byte in word {
        write_escaped(*byte, out)?;
    }
    Ok(())
}

fn write_escaped<W: Sink>(byte: u8, out: &mut W) -> Result<(), Fault>
    ensures { WritesText (W.stream out.old) (W.stream out.new) result (escape_of byte) }
{
    match byte {
        b'\n' => write_all(out, b"\\n"),
        b'\t' => write_all(out, b"\\t"),
        b'\r' => write_all(out, b"\\r"),
        b'\\' => write_all(out, b"\\\\"),
        b'"' => write_all(out, b"\\\""),
        _ => write_all(out, &[byte]),
    }
}

/// Writes the word that has these characters, as `write_word` does.
pub fn write_text<W: Sink>(text: &[char], out: &mut W) -> Result<(), Fault>
    ensures { WritesText (W.stream out.old) (W.stream out.new) result (text_of_word (encode_utf8_all text.now)) }
{
    if text.is_empty() {
        return write_all(out, b"\"\"");
    }
    if is_quoted(text) {
        return write_quoted_text(text, out);
    }
    write_bare_text(text, out)
}

// Whether a character of the text wants quotes.
fn is_quoted(text: &[char]) -> bool
    ensures { result ≡ list_any (λ c. list_any needs_quotes (encode_utf8 c)) text.now }
{
    text.iter().any(|character| is_quoted_character(*character))
}

fn is_quoted_character(character: char) -> bool
    ensures { result ≡ list_any needs_quotes (encode_utf8 character) }
{
    let mut buffer = [0; 4];
    has_quoted(character.encode_utf8(&mut buffer).as_bytes())
}

fn write_bare_text<W: Sink>(text: &[char], out: &mut W) -> Result<(), Fault>
    ensures { WritesText (W.stream out.old) (W.stream out.new) result (flat_map encode_utf8 text.now) }
{
    for character in text {
        write_character(*character, out)?;
    }
    Ok(())
}

fn write_character<W: Sink>(character: char, out: &mut W) -> Result<(), Fault>
    ensures { WritesText (W.stream out.old) (W.stream out.new) result (encode_utf8 character) }
{
    let mut buffer = [0; 4];
    write_all(out, character.encode_utf8(&mut buffer).as_bytes())
}

fn write_quoted_text<W: Sink>(text: &[char], out: &mut W) -> Result<(), Fault>
    ensures { WritesText (W.stream out.old) (W.stream out.new) result (34 ∷ flat_map (λ c. flat_map escape_of (encode_utf8 c)) text.now
        ++ (34 ∷ [])) }
{
    write_all(out, b"\"")?;
    write_escaped_text(text, out)?;
    write_all(out, b"\"")
}

fn write_escaped_text<W: Sink>(text: &[char], out: &mut W) -> Result<(), Fault>
    ensures { WritesText (W.stream out.old) (W.stream out.new) result (flat_map (λ c. flat_map escape_of (encode_utf8 c)) text.now) }
{
    for character in text {
        write_escaped_character(*character, out)?;
    }
    Ok(())
}

fn write_escaped_character<W: Sink>(character: char, out: &mut W) -> Result<(), Fault>
    ensures { WritesText (W.stream out.old) (W.stream out.new) result (flat_map escape_of (encode_utf8 character)) }
{
    let mut buffer = [0; 4];
    write_all_escaped(character.encode_utf8(&mut buffer).as_bytes(), out)
}
