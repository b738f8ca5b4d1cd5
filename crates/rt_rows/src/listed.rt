// Inserts whose list of tags is kept with others.
ghost use Rattle.std.specs.Prelude.{◌≡◌, List, true};
ghost use Rattle.rt_ops.specs.Operations.{Name};
ghost use Rattle.rt_ops.specs.Rules.{is_text, keeps_rules};
ghost use Rattle.rt_ops.specs.Views.{body_in};
ghost use Rattle.rt_rows.specs.Listed.{insert_under};
ghost use Rattle.rt_rows.specs.Views.{operation_in};

use crate::names::TagLists;
use rt_ops::{EditView, OpView, Text};
use rt_stamps::Stamp;
use std::marker::Model;

/// An Insert: its stamp, the last count of its site's operation before it, the element after which it stands, the place of
/// its list of tags, and its text.
#[derive(Drop)]
pub(crate) struct ListedInsert {
    stamp: Stamp,
    prev: u64,
    after: Stamp,
    list: u32,
    text: Text,
}

impl Model for ListedInsert {
    ghost use Rattle.std.specs.Prelude.{◌≡◌, true};
    ghost use Rattle.rt_ops.specs.Rules.{is_text};
    ghost use Rattle.rt_rows.specs.Listed.{KeptInsert};

    ghost Value = { KeptInsert };

    ghost view = { λ one. record { stamp = one.stamp; prev = one.prev; after = one.after; list = one.list; text = one.text } };

    ghost invariant = { λ one. is_text one.text ≡ true };
}

impl ListedInsert {
    /// An Insert of these parts.
    pub(crate) fn of(stamp: Stamp, prev: u64, after: Stamp, list: u32, text: Text) -> ListedInsert
        requires { is_text text ≡ true }
        ensures { result ≡ record { stamp = stamp; prev = prev; after = after; list = list; text = text } }
    {
        ListedInsert {
            stamp,
            prev,
            after,
            list,
            text,
        }
    }

    /// Its stamp.
    pub(crate) fn stamp(&self) -> Stamp
        ensures { result ≡ self.now.stamp }
    {
        self.stamp
    }

    /// It as an operation, where the lists of tags are these.
    pub(crate) fn view<'a>(&'a self, lists: &'a TagLists) -> OpView<'a>
        ensures is { operation_in result ≡ insert_under lists.now.lists self.now }
        ensures rules { keeps_rules (body_in result.edit) ≡ true }
    {
        OpView {
            stamp: self.stamp,
            prev: self.prev,
            edit: EditView::Insert {
                after: self.after,
                tags: lists.names_at(Some(self.list)),
                text: self.text.characters(),
            },
        }
    }
}
