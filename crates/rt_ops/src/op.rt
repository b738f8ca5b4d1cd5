// Operations.
ghost use Rattle.std.specs.Prelude.{◌≡◌, ℕ, ◌+◌, ◌<◌, ◌≤◌, ◌^◌, string_bytes, true, ◌∷◌, [], IfOk, IsOkUnless};
ghost use Rattle.std.specs.List.{list_any};
ghost use Rattle.rt_stamps.specs.declared.fault.Fault.TheVariants.{NoMemory};
ghost use Rattle.rt_stamps.specs.Words.{as_words};
ghost use Rattle.rt_ops.specs.Operations.{Insert, Delete, Tag, stamp_of, last_count as last_count_of, last_of, soundness, named, reaches, stamps_of_span};
ghost use Rattle.rt_ops.specs.Rules.{within_rules, keeps_rules};

use crate::rules::{are_spans, are_tags, is_name};
use crate::{EditView, OpView, Text};
use rt_stamps::limits::GREATEST_COUNT;
use rt_stamps::{Fault, ROOT, Span, Stamp};
use std::alloc::Global;
use std::marker::Model;

/// What an operation does.
#[derive(Drop)]
pub enum Edit {
    /// Puts a text in after an element, with the tags that it lists: 0 to 255 of them, each once, by the bytes of their
    /// names.
    Insert {
        after: Stamp,
        tags: Vec<String>,
        text: Text,
    },
    /// Takes the characters of spans away, of which there are 1 to 65,536.
    Delete {
        spans: Vec<Span>,
    },
    /// Puts a tag on the characters of spans, or takes it off; there are 1 to 65,536 of these.
    Tag {
        on: bool,
        name: String,
        spans: Vec<Span>,
    },
}

/// What a site did, as it tells the others. Its names, tags, text and spans always keep the rules
/// of the file format; what its stamps have to keep `check` tells.
pub struct Op {
    count: u64,
    prev: u64,
    site: u32,
    edit: Edit,
}

// Written out, so that where it is let go is one step for the crates above, and not one for each
// field of each field.
impl Drop for Op {
    #[inline(always)]
    fn drop(self) {
        let Op {
            count: _,
            prev: _,
            site: _,
            edit: _,
        } = self;
    }
}

impl Model for Op {
    ghost use Rattle.std.specs.Prelude.{◌≡◌, true};
    ghost use Rattle.rt_ops.specs.Operations.{Operation};

    ghost Value = { Operation };

    ghost use Rattle.rt_ops.specs.Rules.{keeps_rules};
    ghost use Rattle.rt_ops.specs.Edits.{body_of};

    ghost view = { λ op. record { count = op.count; site = op.site; prev = op.prev; body = body_of op.edit } };

    ghost invariant = { λ op. keeps_rules (body_of op.edit) ≡ true };
}

impl Op {
    ghost use Rattle.rt_ops.specs.Edits.{body_of};

    /// An Insert: `text` after the element `after`, under `tags`. `BadRecord` exactly where the tags
    /// or the text break a rule. Stamps may be any.
    pub fn insert(
        stamp: Stamp,
        prev: u64,
        after: Stamp,
        tags: Vec<String>,
        text: Vec<char>,
    ) -> Result<Op, Fault>
        ensures { result ≡ within_rules (record {
          count = stamp.count;
          site = stamp.site;
          prev = prev;
          body = Insert after (as_words tags.items) text.items;
        }) }
    {
        Op::insert_text(stamp, prev, after, tags, Text::new(text))
    }

    /// An Insert, as `insert` has it, of a text that is kept as it is.
    pub(crate) fn insert_text(
        stamp: Stamp,
        prev: u64,
        after: Stamp,
        tags: Vec<String>,
        text: Text,
    ) -> Result<Op, Fault>
        ensures { result ≡ within_rules (record {
          count = stamp.count;
          site = stamp.site;
          prev = prev;
          body = Insert after (as_words tags.items) text;
        }) }
    {
        if !are_tags(&tags) || !text.keeps_rules() {
            return Err(Fault::BadRecord);
        }
        Ok(Op::of(stamp, prev, Edit::Insert { after, tags, text }))
    }

    /// A Delete of the characters of `spans`. `BadRecord` exactly where these break a rule.
    pub fn delete(stamp: Stamp, prev: u64, spans: Vec<Span>) -> Result<Op, Fault>
        ensures { result ≡ within_rules (record { count = stamp.count; site = stamp.site; prev = prev; body = Delete spans.items }) }
    {
        if !are_spans(&spans) {
            return Err(Fault::BadRecord);
        }
        Ok(Op {
            count: stamp.count,
            prev,
            site: stamp.site,
            edit: Edit::Delete { spans },
        })
    }

    /// A Tag, which puts the tag `name` on the characters of `spans`, or takes it off. `BadRecord`
    /// exactly where the name or the spans break a rule.
    pub fn tag(
        stamp: Stamp,
        prev: u64,
        on: bool,
        name: String,
        spans: Vec<Span>,
    ) -> Result<Op, Fault>
        ensures { result ≡ within_rules (record { count = stamp.count; site = stamp.site; prev = prev; body = Tag on (string_bytes name) spans.items }) }
    {
        if !is_name(&name) || !are_spans(&spans) {
            return Err(Fault::BadRecord);
        }
        Ok(Op {
            count: stamp.count,
            prev,
            site: stamp.site,
            edit: Edit::Tag { on, name, spans },
        })
    }

    /// An operation that does what an edit says, which keeps the rules. Stamps may be any.
    pub fn of(stamp: Stamp, prev: u64, edit: Edit) -> Op
        requires { keeps_rules (body_of edit) ≡ true }
        ensures { result ≡ record { count = stamp.count; site = stamp.site; prev = prev; body = body_of edit } }
    {
        Op {
            count: stamp.count,
            prev,
            site: stamp.site,
            edit,
        }
    }

    /// The operation once more. `NoMemory` is its only fault.
    pub fn copied(&self, alloc: Global) -> Result<Op, Fault>
        ensures copy { IfOk result (λ op. op ≡ self.now) }
        ensures fault { IsOkUnless result NoMemory }
    {
        OpView::of(self).copied(alloc)
    }

    /// The first count, or the only one.
    pub fn count(&self) -> u64
        ensures { result ≡ self.now.count }
    {
        self.count
    }

    /// The number of the site that made it.
    pub fn site(&self) -> u32
        ensures { result ≡ self.now.site }
    {
        self.site
    }

    /// The last count of the site's operation before it, 0 if it is the first.
    pub fn prev(&self) -> u64
        ensures { result ≡ self.now.prev }
    {
        self.prev
    }

    /// The first stamp.
    pub fn stamp(&self) -> Stamp
        ensures { result ≡ stamp_of self.now }
    {
        Stamp {
            count: self.count,
            site: self.site,
        }
    }

    /// What it does.
    pub fn edit(&self) -> &Edit
        ensures body { body_of result.now ≡ self.now.body }
        ensures rules { keeps_rules self.now.body ≡ true }
    {
        &self.edit
    }

    /// What it does, by itself: the operation is used up.
    pub fn into_edit(self) -> Edit
        ensures body { body_of result ≡ self.body }
        ensures rules { keeps_rules self.body ≡ true }
    {
        let Op {
            count: _,
            prev: _,
            site: _,
            edit,
        } = self;
        edit
    }

    /// The last count: that of the last character of an Insert, else the first. It is asked of operations
    /// whose last count is at most `GREATEST_COUNT`.
    pub fn last_count(&self) -> u64
        requires { last_count_of self.now ≤ GREATEST_COUNT }
        ensures { result ≡ last_count_of self.now }
    {
        self.count + EditView::of(&self.edit).more_counts()
    }

    /// `BadStamp` exactly where a stamp is out of its range: site 0, count 0, a last count past
    /// `GREATEST_COUNT`, a `prev` that is not below the count, or a named stamp that is not before
    /// the operation's own.
    pub fn check(&self) -> Result<(), Fault>
        ensures { result ≡ soundness self.now }
    {
        let ranged = self.site > 0
            && self.count > 0
            && self.count <= GREATEST_COUNT
            && EditView::of(&self.edit).more_counts() <= GREATEST_COUNT - self.count
            && self.prev < self.count;
        if !ranged || names_later(&self.edit, self.stamp()) {
            return Err(Fault::BadStamp);
        }
        Ok(())
    }
}

ghost use Rattle.rt_ops.specs.Edits.{body_of as body_seen};

/// Whether an operation of this stamp would name one that is not before it.
fn names_later(edit: &Edit, stamp: Stamp) -> bool
    ensures { result ≡ reaches (named (body_seen edit.now)) stamp }
{
    match edit {
        Edit::Insert {
            after,
            tags: _,
            text: _,
        } => !(*after < stamp),
        Edit::Delete { spans } => any_reaches(spans, stamp),
        Edit::Tag {
            on: _,
            name: _,
            spans,
        } => any_reaches(spans, stamp),
    }
}

/// Whether a stamp of one of the spans is not before another stamp.
fn any_reaches(spans: &[Span], stamp: Stamp) -> bool
    ensures { result ≡ list_any (λ span. reaches (stamps_of_span span) stamp) spans.now }
{
    spans.iter().any(|span| span_reaches(span, stamp))
}

/// Whether a stamp of a span is not before another stamp.
fn span_reaches(span: &Span, stamp: Stamp) -> bool
    ensures { result ≡ reaches (stamps_of_span span.now) stamp }
{
    if span.last < span.first {
        return false;
    }
    !(Stamp {
        count: span.last,
        site: span.site,
    } < stamp)
}
