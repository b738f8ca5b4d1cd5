// The lines of changes, written.
ghost use Rattle.std.specs.Prelude.{◌≡◌, ◌<◌, ◌∷◌, ◌++◌, [], IfOk, IfSome, IsOkUnless, OnOk, codes, flat_map, if◌then◌else◌, string_bytes};
ghost use Rattle.std.specs.Io.KnownBytes.{Appends};
ghost use Rattle.rt_stamps.specs.declared.fault.Fault.TheVariants.{NoMemory};
ghost use Rattle.rt_stamps.specs.Words.{as_words};
ghost use Rattle.rt_words.specs.Writing.{text_of_word};
ghost use Rattle.rt_files.specs.Parts.{text_of_part};
ghost use Rattle.rt_changes.specs.Replays.{Deleted, Inserted, Tagged};
ghost use Rattle.rt_script.specs.Changes.{change_line, change_lines};

use rt_changes::{PlaceRun, ToldChange};
use rt_files::parts::{Part, write_names, write_parts};
use rt_stamps::std_ends::{Count, Writer};
use rt_stamps::{Fault, Sink, write_all};
use std::alloc::Global;
use std::marker::Brand;
use std::sync::ledger::{Blank, Ledger};

// A line: its first word, and parts and names behind it, a space before each.
fn write_line<W: Sink>(
    head: &[u8],
    parts: &[Part<'_>],
    names: &[String],
    out: &mut W,
) -> Result<(), Fault>
    ensures { OnOk result (Appends (W.stream out.old).bytes (W.stream out.new).bytes
        (head.now ++ (flat_map (λ part. 32 ∷ text_of_part part) parts.now
        ++ (flat_map (λ name. 32 ∷ text_of_word (string_bytes name)) names.now ++ (10 ∷ []))))) }
{
    write_all(out, head)?;
    write_parts(parts, out)?;
    write_names(names, out)?;
    write_all(out, b"\n")
}

// Text that came in, with its tags.
fn write_insert<W: Sink>(
    at: usize,
    text: &[char],
    tags: &[String],
    out: &mut W,
) -> Result<(), Fault>
    ensures { OnOk result (Appends (W.stream out.old).bytes (W.stream out.new).bytes (change_line (Inserted at text.now (as_words tags.now)))) }
{
    let parts = [Part::Number(at as u64), Part::Text(text)];
    write_line(b"insert", &parts, tags, out)
}

// Characters that are gone.
fn write_deletes<W: Sink>(runs: &[PlaceRun], out: &mut W) -> Result<(), Fault>
    ensures { OnOk result (Appends (W.stream out.old).bytes (W.stream out.new).bytes
        (flat_map (λ run. change_line (Deleted run.from run.to)) runs.now)) }
{
    for run in runs {
        let parts = [Part::Number(run.from as u64), Part::Number(run.to as u64)];
        write_line(b"delete", &parts, &[], out)?;
    }
    Ok(())
}

// The first word of a change of a tag.
fn switch(on: bool) -> &'static [u8]
    ensures { result.now ≡ (if on then codes "tag" else codes "untag") }
{
    if on { b"tag" } else { b"untag" }
}

// Characters that have a tag now, or have it no more.
fn write_tags<W: Sink>(on: bool, name: &str, runs: &[PlaceRun], out: &mut W) -> Result<(), Fault>
    ensures { OnOk result (Appends (W.stream out.old).bytes (W.stream out.new).bytes
        (flat_map (λ run. change_line (Tagged on name.now run.from run.to)) runs.now)) }
{
    for run in runs {
        let parts = [
            Part::Name(name),
            Part::Number(run.from as u64),
            Part::Number(run.to as u64),
        ];
        write_line(switch(on), &parts, &[], out)?;
    }
    Ok(())
}

// The lines of what an operation changed.
fn write_change<W: Sink>(change: &ToldChange, out: &mut W) -> Result<(), Fault>
    ensures { OnOk result (Appends (W.stream out.old).bytes (W.stream out.new).bytes (change_lines change.now)) }
{
    match change {
        ToldChange::Inserted { at, text, tags } => write_insert(*at, text.characters(), tags, out),
        ToldChange::Deleted { runs } => write_deletes(runs, out),
        ToldChange::Tagged { on, name, runs } => write_tags(*on, name, runs, out),
    }
}

fn rendered<A: Ledger, B: Ledger>(
    alloc: Global,
    change: &ToldChange,
    writes: Blank,
    failures: Blank,
) -> Option<Vec<u8>>
    requires writes { (writes.name ≡ A.name) × (writes.parts ≡ A.parts) × (0 < A.parts) }
    requires failures { (failures.name ≡ B.name) × (failures.parts ≡ B.parts) × (0 < B.parts) }
    ensures { IfSome result (λ lines. lines.items ≡ change_lines change.now) }
{
    let mut lines = Writer::new(
        Vec::new(alloc),
        Count::<A>::begin(writes),
        Count::<B>::begin(failures),
    );
    match write_change(change, &mut lines) {
        Ok(()) => Some(lines.into_inner()),
        Err(_) => None,
    }
}

/// The lines of what an operation changed, in memory of their own. Want of memory.
pub(crate) fn change_bytes(alloc: Global, change: &ToldChange) -> Result<Vec<u8>, Fault>
    ensures ok { IfOk result (λ lines. lines.items ≡ change_lines change.now) }
    ensures err { IsOkUnless result NoMemory }
{
    match rendered::<Brand, Brand>(alloc, change, Blank::new(1), Blank::new(1)) {
        Some(lines) => Ok(lines),
        None => Err(Fault::NoMemory),
    }
}
