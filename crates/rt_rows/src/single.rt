// The operations that lie in rows: the Insert of one character, as it is typed, and the Delete of one span.
ghost use Rattle.std.specs.Prelude.{◌≡◌, ◌≤◌, ◌∷◌, ℕ, [], List, IfSome};
ghost use Rattle.rt_stamps.specs.declared.limits.TheConstants.{GREATEST_COUNT as GREATEST};
ghost use Rattle.rt_ops.specs.Operations.{Name, stamp_of};
ghost use Rattle.rt_rows.specs.Listed.{IsListed};
ghost use Rattle.rt_rows.specs.Views.{MayStand, list_of, operation_deleting, operation_of, operation_typed};

use rt_ops::{Edit, Op};
use rt_stamps::limits::GREATEST_COUNT;
use rt_stamps::{Span, Stamp};

/// The Insert of one character without tags: its stamp, the last count of its site's operation before it, the element after
/// which it stands, and the character.
#[derive(Clone, Copy)]
pub struct TypedOp {
    pub stamp: Stamp,
    pub prev: u64,
    pub after: Stamp,
    pub character: char,
}

/// The Delete of one span: its stamp, the last count of its site's operation before it, and the span.
#[derive(Clone, Copy)]
pub(crate) struct DeleteOp {
    pub(crate) stamp: Stamp,
    pub(crate) prev: u64,
    pub(crate) span: Span,
}

/// An operation that may lie in a row: a character, under the tags of the list at a place or without any, or a Delete.
#[derive(Clone, Copy)]
pub(crate) enum RowOp {
    Typed(TypedOp, Option<u32>),
    Deleted(DeleteOp),
}

/// The character of an Insert, where it has one and no more, and a count that there may be.
pub(crate) fn typed_in(stamp: Stamp, prev: u64, after: Stamp, text: &[char]) -> Option<TypedOp>
    ensures stamp { IfSome result (λ typed. (typed.stamp ≡ stamp) × (typed.prev ≡ prev) × (typed.after ≡ after)) }
    ensures text { IfSome result (λ typed. text.now ≡ typed.character ∷ []) }
    ensures count { IfSome result (λ typed. typed.stamp.count ≤ GREATEST) }
{
    match text {
        [character] if stamp.count <= GREATEST_COUNT => Some(TypedOp {
            stamp,
            prev,
            after,
            character: *character,
        }),
        _ => None,
    }
}

/// An operation without tags as one that may lie in a row, where it is such, of a count that there may be.
pub(crate) fn row_op_in(op: &Op) -> Option<RowOp>
    ensures is { IfSome result (λ one. (lists : List (List Name)) → operation_of lists one ≡ op.now) }
    ensures stands { IfSome result (λ one. MayStand (operation_of [] one)) }
    ensures listed { IfSome result (λ one. (many : ℕ) → IsListed many (list_of one)) }
{
    if op.stamp().count > GREATEST_COUNT {
        return None;
    }
    match op.edit() {
        Edit::Insert { after, tags, text } => match text.characters() {
            [character] if tags.is_empty() => {
                let typed = TypedOp {
                    stamp: op.stamp(),
                    prev: op.prev(),
                    after: *after,
                    character: *character,
                };
                Some(RowOp::Typed(typed, None))
            }
            _ => None,
        },
        Edit::Delete { spans } => match spans.as_slice() {
            [span] => Some(RowOp::Deleted(DeleteOp {
                stamp: op.stamp(),
                prev: op.prev(),
                span: *span,
            })),
            _ => None,
        },
        Edit::Tag {
            on: _,
            name: _,
            spans: _,
        } => None,
    }
}
