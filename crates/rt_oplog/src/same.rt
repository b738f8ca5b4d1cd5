// Equality and clashes of operations.
ghost use Rattle.std.specs.Prelude.{◌≡◌, ◌≤◌, false};
ghost use Rattle.std.specs.Cmp.Lexicographic.{pointwise};
ghost use Rattle.std.specs.Str.{bytes_eq};
ghost use Rattle.rt_stamps.specs.declared.limits.TheConstants.{GREATEST_COUNT};
ghost use Rattle.rt_stamps.specs.Words.{as_words};
ghost use Rattle.rt_ops.specs.Operations.{last_count};
ghost use Rattle.rt_ops.specs.Views.{body_in, operation_in};
ghost use Rattle.rt_oplog.specs.Logs.{same_span, same_body, same_operation, reaches_into, clash};

use crate::Op;
use rt_ops::{EditView, OpView};
use rt_stamps::Span;

/// Whether names are the same, in the same order.
fn are_same_names(one: &[String], other: &[String]) -> bool
    ensures { result ≡ pointwise bytes_eq (as_words one.now) (as_words other.now) }
{
    one == other
}

/// Whether spans are the same.
fn are_same_spans(one: &[Span], other: &[Span]) -> bool
    ensures { result ≡ pointwise same_span one.now other.now }
{
    one == other
}

/// Whether two operations do the same.
fn is_same_edit(one: EditView<'_>, other: EditView<'_>) -> bool
    ensures { result ≡ same_body (body_in one.entry) (body_in other.entry) }
{
    match (one, other) {
        (
            EditView::Insert { after, tags, text },
            EditView::Insert {
                after: left,
                tags: names,
                text: more,
            },
        ) => after == left && are_same_names(tags, names) && text == more,
        (EditView::Delete { spans }, EditView::Delete { spans: others }) => {
            are_same_spans(spans, others)
        }
        (
            EditView::Tag { on, name, spans },
            EditView::Tag {
                on: other,
                name: label,
                spans: others,
            },
        ) => on == other && name == label && are_same_spans(spans, others),
        _ => false,
    }
}

/// Whether two operations, seen where they are kept, are the same: in stamp, previous count and all that they do.
pub(crate) fn are_alike(one: OpView<'_>, other: OpView<'_>) -> bool
    ensures { result ≡ same_operation (operation_in one.entry) (operation_in other.entry) }
{
    one.stamp == other.stamp && one.prev == other.prev && is_same_edit(one.edit, other.edit)
}

/// Whether two operations are the same: in stamp, previous count and all that they do.
pub fn is_same(one: &Op, other: &Op) -> bool
    ensures { result ≡ same_operation one.now other.now }
{
    are_alike(OpView::of(one), OpView::of(other))
}

/// Whether an operation goes on from below the last count of another of its site, which has no
/// greater count.
fn is_reached(one: OpView<'_>, other: OpView<'_>) -> bool
    requires { last_count (operation_in one) ≤ GREATEST_COUNT }
    ensures { result ≡ reaches_into (operation_in one.entry) (operation_in other.entry) }
{
    one.site() == other.site()
        && one.stamp.count <= other.stamp.count
        && other.prev < one.last_count()
}

/// Whether an operation clashes with one that is kept.
pub(crate) fn is_clash(op: &Op, view: OpView<'_>) -> bool
    requires one { last_count op.now ≤ GREATEST_COUNT }
    requires other { last_count (operation_in view) ≤ GREATEST_COUNT }
    ensures { result ≡ clash op.now (operation_in view.entry) }
{
    let one = OpView::of(op);
    !are_alike(one, view) && (is_reached(one, view) || is_reached(view, one))
}
