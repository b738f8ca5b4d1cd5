// Operations as the bytes of a file.
ghost use Rattle.std.specs.Prelude.{◌≡◌, ◌∷◌, [], ◌++◌, drop, ◌<◌, ◌≤◌, ◌^◌, length, string_bytes, encode_utf8_all, true, IsOkUnless, OnErr, OnOk};
ghost use Rattle.std.specs.List.{AllByRecursion};
ghost use Rattle.std.specs.Int.{w16, w32, w64};
ghost use Rattle.rt_stamps.specs.declared.fault.Fault.TheVariants.{NoMemory};
ghost use Rattle.rt_stamps.specs.declared.limits.TheConstants.{MOST_RECORD_BYTES};
ghost use Rattle.rt_stamps.specs.Words.{as_words};
ghost use Rattle.rt_ops.specs.declared.version.Version.TheVariants.{One};
ghost use Rattle.rt_ops.specs.File.{number, stamp_bytes, span_bytes, spans_bytes, name_bytes, tags_bytes, body_bytes, kind_of, content_of, record_of, HasRecord, have_room, has_room, fits};
ghost use Rattle.rt_ops.specs.Decoding.{BodyFits, SpanFits, StampFits};
ghost use Rattle.rt_ops.specs.Versions.{layout, sites};
ghost use Rattle.rt_ops.specs.Rules.{keeps_rules};
ghost use Rattle.rt_ops.specs.Views.{body_in, operation_in};

use crate::fields::LENGTH_BYTES;
use crate::{EditView, OpView, Version};
use byteorder::{BigEndian, ByteOrder};
use rt_stamps::{Fault, Span, Stamp};

#[tactic(auto, unfolding(crate::specs::File::number))]
fn push_u16(out: &mut Vec<u8>, n: u16) -> Result<(), Fault>
    ensures ok { OnOk result (out.new.items ≡ out.old.items ++ number w16 n) }
    ensures fault { IsOkUnless result NoMemory }
{
    let mut bytes = [0; 2];
    BigEndian::write_u16(&mut bytes, n);
    out.extend_from_slice(&bytes)?;
    Ok(())
}

#[tactic(auto, unfolding(crate::specs::File::number))]
fn push_u32(out: &mut Vec<u8>, n: u32) -> Result<(), Fault>
    ensures ok { OnOk result (out.new.items ≡ out.old.items ++ number w32 n) }
    ensures fault { IsOkUnless result NoMemory }
{
    let mut bytes = [0; 4];
    BigEndian::write_u32(&mut bytes, n);
    out.extend_from_slice(&bytes)?;
    Ok(())
}

#[tactic(auto, unfolding(crate::specs::File::number))]
fn push_u64(out: &mut Vec<u8>, n: u64) -> Result<(), Fault>
    ensures ok { OnOk result (out.new.items ≡ out.old.items ++ number w64 n) }
    ensures fault { IsOkUnless result NoMemory }
{
    let mut bytes = [0; 8];
    BigEndian::write_u64(&mut bytes, n);
    out.extend_from_slice(&bytes)?;
    Ok(())
}

/// The number of a site, in as many bytes as the version has for it.
fn push_site(out: &mut Vec<u8>, version: Version, site: u32) -> Result<(), Fault>
    requires { version ≡ One → site < sites One }
    ensures ok { OnOk result (out.new.items ≡ out.old.items ++ number (layout version).site site) }
    ensures fits { site < sites version }
    ensures fault { IsOkUnless result NoMemory }
{
    match version {
        Version::One => push_u16(out, site as u16),
        Version::Two => push_u32(out, site),
    }
}

#[tactic(auto, unfolding(crate::specs::File::stamp_bytes))]
fn push_stamp(out: &mut Vec<u8>, version: Version, stamp: Stamp) -> Result<(), Fault>
    requires { version ≡ One → stamp.site < sites One }
    ensures ok { OnOk result (out.new.items ≡ out.old.items ++ stamp_bytes version stamp) }
    ensures fits { StampFits version stamp }
    ensures fault { IsOkUnless result NoMemory }
{
    push_u64(out, stamp.count)?;
    push_site(out, version, stamp.site)?;
    Ok(())
}

#[tactic(auto, unfolding(crate::specs::File::span_bytes))]
fn push_span(out: &mut Vec<u8>, version: Version, span: Span) -> Result<(), Fault>
    requires { version ≡ One → span.site < sites One }
    ensures ok { OnOk result (out.new.items ≡ out.old.items ++ span_bytes version span) }
    ensures fits { SpanFits version span }
    ensures fault { IsOkUnless result NoMemory }
{
    push_site(out, version, span.site)?;
    push_u64(out, span.first)?;
    push_u64(out, span.last)?;
    Ok(())
}

#[tactic(auto, unfolding(crate::specs::File::spans_bytes))]
fn push_spans(out: &mut Vec<u8>, version: Version, spans: &[Span]) -> Result<(), Fault>
    requires count { length spans.now < 2 ^ 32 }
    requires room { version ≡ One → have_room One spans.now ≡ true }
    ensures ok { OnOk result (out.new.items ≡ out.old.items ++ spans_bytes version spans.now) }
    ensures fits { OnOk result (AllByRecursion (SpanFits version) spans.now) }
    ensures fault { IsOkUnless result NoMemory }
{
    push_u32(out, spans.len() as u32)?;
    for span in spans {
        push_span(out, version, *span)?;
    }
    Ok(())
}

fn push_name(out: &mut Vec<u8>, name: &str) -> Result<(), Fault>
    requires { length name.now < 2 ^ 8 }
    ensures ok { OnOk result (out.new.items ≡ out.old.items ++ name_bytes name.now) }
    ensures fault { IsOkUnless result NoMemory }
{
    out.push(name.len() as u8)?;
    out.extend_from_slice(name.as_bytes())?;
    Ok(())
}

#[tactic(auto, unfolding(crate::specs::File::tags_bytes))]
fn push_tags(out: &mut Vec<u8>, tags: &[String]) -> Result<(), Fault>
    requires count { length tags.now < 2 ^ 8 }
    requires names { AllByRecursion (λ tag. length (string_bytes tag) < 2 ^ 8) tags.now }
    ensures ok { OnOk result (out.new.items ≡ out.old.items ++ tags_bytes (as_words tags.now)) }
    ensures fault { IsOkUnless result NoMemory }
{
    out.push(tags.len() as u8)?;
    for tag in tags {
        push_name(out, tag.as_str())?;
    }
    Ok(())
}

fn push_text(out: &mut Vec<u8>, text: &[char]) -> Result<(), Fault>
    ensures ok { OnOk result (out.new.items ≡ out.old.items ++ encode_utf8_all text.now) }
    ensures fault { IsOkUnless result NoMemory }
{
    for c in text {
        let mut bytes = [0; 4];
        out.extend_from_slice(c.encode_utf8(&mut bytes).as_bytes())?;
    }
    Ok(())
}

fn push_body(out: &mut Vec<u8>, version: Version, edit: EditView<'_>) -> Result<(), Fault>
    requires rules { keeps_rules (body_in edit) ≡ true }
    requires room { version ≡ One → has_room One (body_in edit) ≡ true }
    ensures ok { OnOk result (out.new.items ≡ out.old.items ++ body_bytes version (body_in edit.entry)) }
    ensures fits { OnOk result (BodyFits version (body_in edit.entry)) }
    ensures fault { IsOkUnless result NoMemory }
{
    match edit {
        EditView::Insert { after, tags, text } => {
            push_stamp(out, version, after)?;
            push_tags(out, tags)?;
            push_text(out, text)
        }
        EditView::Delete { spans } => push_spans(out, version, spans),
        EditView::Tag { on, name, spans } => {
            out.push(u8::from(on))?;
            push_name(out, name)?;
            push_spans(out, version, spans)
        }
    }
}

fn kind(edit: EditView<'_>) -> u8
    ensures { result ≡ kind_of (body_in edit.entry) }
{
    match edit {
        EditView::Insert {
            after: _,
            tags: _,
            text: _,
        } => 1,
        EditView::Delete { spans: _ } => 2,
        EditView::Tag {
            on: _,
            name: _,
            spans: _,
        } => 3,
    }
}

/// What stands behind a record's length field.
#[tactic(auto, using(crate::proofs::Lengths::content_short))]
fn push_content(out: &mut Vec<u8>, version: Version, op: OpView<'_>) -> Result<(), Fault>
    requires rules { keeps_rules (body_in op.edit) ≡ true }
    requires room { version ≡ One → fits One (operation_in op) ≡ true }
    ensures ok { OnOk result (out.new.items ≡ out.old.items ++ content_of version (operation_in op.entry)) }
    ensures record { OnOk result (HasRecord version (operation_in op.entry)) }
    ensures short { length (content_of version (operation_in op.entry)) ≤ MOST_RECORD_BYTES }
    ensures fault { IsOkUnless result NoMemory }
{
    out.push(kind(op.edit))?;
    push_stamp(out, version, op.stamp)?;
    push_u64(out, op.prev)?;
    push_body(out, version, op.edit)
}

/// Writes a record's length into the front of a buffer.
#[tactic(auto, unfolding(crate::specs::File::number))]
fn write_length(buffer: &mut [u8], n: u32)
    requires { 4 ≤ length buffer.old }
    ensures { buffer.new ≡ number w32 n ++ drop 4 buffer.old }
{
    BigEndian::write_u32(buffer, n);
}

// Adds a length field that isn't written yet, and what stands behind it.
fn push_record(buffer: &mut Vec<u8>, version: Version, op: OpView<'_>) -> Result<(), Fault>
    requires rules { keeps_rules (body_in op.edit) ≡ true }
    requires room { version ≡ One → fits One (operation_in op) ≡ true }
    ensures ok { OnOk result (buffer.new.items ≡ buffer.old.items ++ ((0 ∷ 0 ∷ 0 ∷ 0 ∷ []) ++ content_of version (operation_in op.entry))) }
    ensures short { OnOk result (length (content_of version (operation_in op.entry)) ≤ MOST_RECORD_BYTES) }
    ensures record { OnOk result (HasRecord version (operation_in op.entry)) }
    ensures fault { IsOkUnless result NoMemory }
{
    buffer.extend_from_slice(&[0; LENGTH_BYTES])?;
    push_content(buffer, version, op)
}

/// Makes a buffer the record of an operation in a version that has room for it, as the second always has. After want of
/// memory it is empty.
pub fn spell(buffer: &mut Vec<u8>, version: Version, op: OpView<'_>) -> Result<(), Fault>
    requires rules { keeps_rules (body_in op.edit) ≡ true }
    requires room { version ≡ One → fits One (operation_in op) ≡ true }
    ensures ok { OnOk result (buffer.new.items ≡ record_of version (operation_in op.entry)) }
    ensures record { OnOk result (HasRecord version (operation_in op.entry)) }
    ensures empty { OnErr result (buffer.new.items ≡ []) }
    ensures fault { IsOkUnless result NoMemory }
{
    buffer.clear();
    if let Err(fault) = push_record(buffer, version, op) {
        buffer.clear();
        return Err(fault);
    }
    let length = buffer.len() - LENGTH_BYTES;
    write_length(buffer, length as u32);
    Ok(())
}
