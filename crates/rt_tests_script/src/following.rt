// An editor follows the changes that its site tells, and shows what the site has.
use crate::checks::same;
use crate::editor::{Editor, Glyph};
use rt_script::Reply;
use rt_stamps::{Fault, Position};
use rt_text::PlaceIndex;
use std::alloc::Global;
use std::process::Abort;

// The text of some glyphs.
fn text_of(alloc: Global, glyphs: &[Glyph]) -> Result<String, Fault> {
    let mut text = String::new(alloc);
    for glyph in glyphs {
        text.push(glyph.character)?;
    }
    Ok(text)
}

// Where bold begins and ends.
fn borders(alloc: Global, glyphs: &[Glyph]) -> Result<Vec<Position>, Fault> {
    let mut borders = Vec::new(alloc);
    let mut was_bold = false;
    let mut at = Position {
        line: 1,
        character: 0,
    };
    for glyph in glyphs {
        if glyph.is_bold != was_bold {
            borders.push(at)?;
            was_bold = glyph.is_bold;
        }
        at.character = at.character.saturating_add(1);
        if glyph.character == '\n' {
            at.line = at.line.saturating_add(1);
            at.character = 0;
        }
    }
    if was_bold {
        borders.push(at)?;
    }
    Ok(borders)
}

// Some indices, a space behind each.
fn indices(alloc: Global, positions: &[Position]) -> Result<String, Fault> {
    let mut indices = String::new(alloc);
    for position in positions {
        indices.push_str(&format!(in alloc; "{position} ")?)?;
    }
    Ok(indices)
}

// Stops a test where an editor shows another text than its site has.
fn shows_text(rt: &impl Abort, editor: &Editor) {
    let shown = editor.shown().expect(rt, "a widget");
    let shown = text_of(editor.alloc, shown).expect(rt, "memory");
    let text = editor.text().expect(rt, "memory");
    same(rt, shown.as_str(), text.as_str());
}

// Stops a test where other characters are bold.
fn shows_bold(rt: &impl Abort, editor: &Editor) {
    let shown = editor.shown().expect(rt, "a widget");
    let shown = borders(editor.alloc, shown).expect(rt, "memory");
    let ranges = editor.ranges().expect(rt, "memory");
    same(rt, shown.as_slice(), ranges.as_slice());
}

// Stops a test where an editor shows something else than its site has, or drew all another number of times.
fn follows(rt: &impl Abort, editor: &Editor, draws: usize) {
    shows_text(rt, editor);
    shows_bold(rt, editor);
    same(rt, editor.draws, draws);
}

// Stops a test where two editors don't follow by changes alone.
fn both_follow(rt: &impl Abort, one: &Editor, other: &Editor) {
    follows(rt, one, 1);
    follows(rt, other, 1);
}

// Stops a test where a step is refused, or two editors don't follow it by changes alone.
fn step(rt: &impl Abort, reply: Result<Reply, Fault>, one: &Editor, other: &Editor) {
    same(rt, reply.err(), None);
    both_follow(rt, one, other);
}

// Two editors get what they lack, and show the same text then.
fn exchange(rt: &impl Abort, one: &mut Editor, other: &mut Editor, wanted: &str) {
    one.send(other).expect(rt, "memory");
    both_follow(rt, one, other);
    other.send(one).expect(rt, "memory");
    both_follow(rt, one, other);
    shows(rt, one, wanted);
    shows(rt, other, wanted);
}

// Stops a test where the glyphs of an editor are others.
fn shows(rt: &impl Abort, editor: &Editor, wanted: &str) {
    let shown = text_of(editor.alloc, &editor.screen.glyphs).expect(rt, "memory");
    same(rt, shown.as_str(), wanted);
}

// Stops a test where other indices are the borders of what is bold.
fn is_bold(rt: &impl Abort, editor: &Editor, wanted: &str) {
    let shown = borders(editor.alloc, &editor.screen.glyphs).expect(rt, "memory");
    let shown = indices(editor.alloc, &shown).expect(rt, "memory");
    same(rt, shown.as_str().trim_end(), wanted);
}

// Stops a test where a line of an editor is another, counted from 0.
fn shows_line(rt: &impl Abort, editor: &Editor, number: usize, wanted: &str) {
    let glyphs = editor.screen.line(number).expect(rt, wanted);
    let shown = text_of(editor.alloc, glyphs).expect(rt, "memory");
    same(rt, shown.as_str(), wanted);
}

// Two editors insert and delete. Anna's cursor stands before the `b` of `bread`, which Ben takes away.
fn write(rt: &impl Abort, anna: &mut Editor, ben: &mut Editor) {
    step(rt, anna.insert("1.0", "milk, bread"), anna, ben);
    exchange(rt, anna, ben, "milk, bread\n");
    anna.point(6, ben);
    let first = PlaceIndex::new(0);
    step(rt, anna.insert(first.text(), "buy "), anna, ben);
    step(rt, ben.insert("1.0", "- "), anna, ben);
    same(rt, ben.guest_place(), Some(8));
    step(rt, ben.delete("1.8", "1.end"), anna, ben);
    same(rt, ben.guest_place(), Some(8));
    step(rt, ben.insert("1.end", "tea\njam"), anna, ben);
    exchange(rt, anna, ben, "- buy milk, tea\njam\n");
    same(rt, ben.guest_place(), Some(19));
    shows_line(rt, anna, 1, "jam");
}

// Both make text bold, and change what is bold.
fn embolden(rt: &impl Abort, anna: &mut Editor, ben: &mut Editor) {
    step(rt, anna.tag(true, "1.6", "1.10"), anna, ben);
    step(rt, ben.tag(true, "1.12", "2.2"), anna, ben);
    exchange(rt, anna, ben, "- buy milk, tea\njam\n");
    is_bold(rt, anna, "1.6 1.10 1.12 2.2");
    step(rt, anna.insert("1.8", "xy"), anna, ben);
    step(rt, anna.insert("1.9", "z"), anna, ben);
    step(rt, ben.tag(false, "1.13", "2.1"), anna, ben);
    step(rt, ben.replace("1.12", "1.15", "cocoa"), anna, ben);
    exchange(rt, anna, ben, "- buy mixzylk, cocoa\njam\n");
    is_bold(rt, ben, "1.6 1.13 2.1 2.2");
}

// Both undo and redo, and Anna takes away what Ben brings back.
fn revert(rt: &impl Abort, anna: &mut Editor, ben: &mut Editor) {
    step(rt, ben.undo(), anna, ben);
    is_bold(rt, ben, "1.6 1.13 1.15 1.16 2.1 2.2");
    step(rt, anna.undo(), anna, ben);
    exchange(rt, anna, ben, "- tea\njam\n");
    step(rt, anna.redo(), anna, ben);
    step(rt, ben.redo(), anna, ben);
    exchange(rt, anna, ben, "- buy mixzylk, cocoa\njam\n");
    step(rt, anna.delete("1.0", "end"), anna, ben);
    step(rt, ben.undo(), anna, ben);
    exchange(rt, anna, ben, "tea\n");
    is_bold(rt, anna, "1.0 1.1");
    same(rt, anna.redo().err(), Some(Fault::NothingToRedo));
    both_follow(rt, anna, ben);
}

#[test]
fn an_editor_follows_by_changes(rt: HostRuntime) {
    let alloc = rt.alloc();
    let mut anna = Editor::new(alloc, 1).expect(&rt, "memory");
    let mut ben = Editor::new(alloc, 2).expect(&rt, "memory");
    write(&rt, &mut anna, &mut ben);
    embolden(&rt, &mut anna, &mut ben);
    revert(&rt, &mut anna, &mut ben);
}

// A deletion that takes bold off the last newline is several operations, which are told one by one. Where memory was wanting
// for what is shown, all is drawn anew with the next edit.
#[test]
fn an_editor_draws_all_anew(rt: HostRuntime) {
    let alloc = rt.alloc();
    let mut editor = Editor::new(alloc, 1).expect(&rt, "memory");
    same(&rt, editor.insert("1.0", "a\nb").err(), None);
    same(&rt, editor.tag(true, "1.1", "end").err(), None);
    follows(&rt, &editor, 1);
    same(&rt, editor.delete("2.0", "end").err(), None);
    follows(&rt, &editor, 1);
    shows(&rt, &editor, "a\n");
    editor.is_stale = true;
    same(&rt, editor.insert("1.1", "c").err(), None);
    follows(&rt, &editor, 2);
}

// Anna sees two lines alone, in which and before which both edit.
#[test]
fn an_editor_shows_some_lines(rt: HostRuntime) {
    let alloc = rt.alloc();
    let mut anna = Editor::new(alloc, 1).expect(&rt, "memory");
    let mut ben = Editor::new(alloc, 2).expect(&rt, "memory");
    step(&rt, anna.insert("1.0", "a\nb\nc\nd"), &anna, &ben);
    anna.show_lines(2, 4).expect(&rt, "memory");
    both_follow(&rt, &anna, &ben);
    exchange(&rt, &mut anna, &mut ben, "a\nb\nc\nd\n");
    step(&rt, anna.insert("1.0", "x"), &anna, &ben);
    step(&rt, ben.insert("1.0", "1\n2\n"), &anna, &ben);
    step(&rt, ben.delete("4.0", "4.end"), &anna, &ben);
    step(&rt, ben.tag(true, "3.0", "5.1"), &anna, &ben);
    exchange(&rt, &mut anna, &mut ben, "1\n2\na\nx\nc\nd\n");
    same(&rt, anna.text().expect(&rt, "memory").as_str(), "x\nc\n");
    is_bold(&rt, &anna, "3.0 4.0 4.1 5.1");
}
