// Operations, seen where they are kept.
ghost use Rattle.std.specs.Prelude.{◌≡◌, ℕ, ◌+◌, ◌<◌, ◌≤◌, ◌^◌, true, IfOk, IsOkUnless};
ghost use Rattle.rt_stamps.specs.declared.fault.Fault.TheVariants.{NoMemory};
ghost use Rattle.rt_stamps.specs.declared.limits.TheConstants.{GREATEST_COUNT};
ghost use Rattle.rt_stamps.specs.Words.{as_words};
ghost use Rattle.rt_ops.specs.Edits.{body_of};
ghost use Rattle.rt_ops.specs.Operations.{last_count as last_count_of, last_of, stamp_of};
ghost use Rattle.rt_ops.specs.Rules.{keeps_rules};
ghost use Rattle.rt_ops.specs.Views.{body_in, operation_in};

use crate::{Edit, Op, Text};
use rt_stamps::{Fault, Span, Stamp};
use std::alloc::Global;

/// What an operation does, seen where it is kept (`Edit`).
#[derive(Clone, Copy)]
pub enum EditView<'a> {
    /// Puts a text in after an element, with the tags that it lists.
    Insert {
        after: Stamp,
        tags: &'a [String],
        text: &'a [char],
    },
    /// Takes the characters of spans away.
    Delete {
        spans: &'a [Span],
    },
    /// Puts a tag on the characters of spans, or takes it off.
    Tag {
        on: bool,
        name: &'a str,
        spans: &'a [Span],
    },
}

/// An operation, seen where it is kept: its stamp, the last count of its site's operation before it, and what it does.
#[derive(Clone, Copy)]
pub struct OpView<'a> {
    pub stamp: Stamp,
    pub prev: u64,
    pub edit: EditView<'a>,
}

/// Names once more. `NoMemory` is its only fault.
fn copies_of(alloc: Global, names: &[String]) -> Result<Vec<String>, Fault>
    ensures copy { IfOk result (λ copies. as_words copies.items ≡ as_words names.now) }
    ensures fault { IsOkUnless result NoMemory }
{
    let mut copies = Vec::new(alloc);
    for name in names {
        copies.push(String::from_str(alloc, name)?)?;
    }
    Ok(copies)
}

impl<'a> EditView<'a> {
    /// What an edit does.
    pub(crate) fn of(edit: &'a Edit) -> EditView<'a>
        ensures { body_in result ≡ body_of edit.now }
    {
        match edit {
            Edit::Insert { after, tags, text } => EditView::Insert {
                after: *after,
                tags: tags.as_slice(),
                text: text.characters(),
            },
            Edit::Delete { spans } => EditView::Delete {
                spans: spans.as_slice(),
            },
            Edit::Tag { on, name, spans } => EditView::Tag {
                on: *on,
                name: name.as_str(),
                spans: spans.as_slice(),
            },
        }
    }

    /// It as an edit by itself. `NoMemory` is its only fault.
    pub(crate) fn copied(&self, alloc: Global) -> Result<Edit, Fault>
        ensures copy { IfOk result (λ copy. body_of copy ≡ body_in self.now) }
        ensures fault { IsOkUnless result NoMemory }
    {
        match self {
            EditView::Insert { after, tags, text } => Ok(Edit::Insert {
                after: *after,
                tags: copies_of(alloc, tags)?,
                text: Text::copy_of(alloc, text)?,
            }),
            EditView::Delete { spans } => Ok(Edit::Delete {
                spans: Vec::from_slice(alloc, spans)?,
            }),
            EditView::Tag { on, name, spans } => Ok(Edit::Tag {
                on: *on,
                name: String::from_str(alloc, name)?,
                spans: Vec::from_slice(alloc, spans)?,
            }),
        }
    }

    /// How many counts an operation has after its first.
    pub(crate) fn more_counts(&self) -> u64
        ensures more { (count : ℕ) → last_of count (body_in self.now) ≡ count + result }
        ensures few { result < 2 ^ 62 }
    {
        match self {
            EditView::Insert {
                after: _,
                tags: _,
                text,
            } => (text.len() as u64).saturating_sub(1),
            EditView::Delete { spans: _ } => 0,
            EditView::Tag {
                on: _,
                name: _,
                spans: _,
            } => 0,
        }
    }
}

impl<'a> OpView<'a> {
    /// An operation where it is.
    pub fn of(op: &'a Op) -> OpView<'a>
        ensures same { operation_in result ≡ op.now }
        ensures rules { keeps_rules (body_in result.edit) ≡ true }
    {
        OpView {
            stamp: op.stamp(),
            prev: op.prev(),
            edit: EditView::of(op.edit()),
        }
    }

    /// The number of the site that made it.
    pub fn site(&self) -> u32
        ensures { result ≡ (operation_in self.now).site }
    {
        self.stamp.site
    }

    /// Its last count: that of the last character of an Insert, else the first. It is asked of operations whose last count
    /// is at most `GREATEST_COUNT`.
    pub fn last_count(&self) -> u64
        requires { last_count_of (operation_in self.now) ≤ GREATEST_COUNT }
        ensures { result ≡ last_count_of (operation_in self.now) }
    {
        self.stamp.count + self.edit.more_counts()
    }

    /// The operation as one by itself. `NoMemory` is its only fault.
    pub fn copied(&self, alloc: Global) -> Result<Op, Fault>
        requires rules { keeps_rules (body_in self.now.edit) ≡ true }
        ensures ok { IfOk result (λ op. op ≡ operation_in self.now) }
        ensures fault { IsOkUnless result NoMemory }
    {
        let edit = self.edit.copied(alloc)?;
        Ok(Op::of(self.stamp, self.prev, edit))
    }
}
