// Which version of the file has room for an operation.
ghost use Rattle.std.specs.Prelude.{◌≡◌, nat_lt};
ghost use Rattle.rt_ops.specs.File.{fits, has_room, have_room};
ghost use Rattle.rt_ops.specs.Versions.{sites};
ghost use Rattle.rt_ops.specs.Views.{body_in, operation_in};

use crate::{EditView, OpView, Version};
use rt_stamps::Span;

fn is_within(version: Version, span: &Span) -> bool
    ensures { result ≡ nat_lt span.now.site (sites version) }
{
    span.site <= version.greatest_site()
}

/// Whether the version has room for the sites of all spans.
fn have_room(version: Version, spans: &[Span]) -> bool
    ensures { result ≡ have_room version spans.now }
{
    spans.iter().all(|span| is_within(version, span))
}

/// Whether the version has room for the sites that an edit names, and for its tags.
fn has_room(version: Version, edit: EditView<'_>) -> bool
    ensures { result ≡ has_room version (body_in edit.entry) }
{
    match edit {
        EditView::Insert {
            after,
            tags,
            text: _,
        } => after.site <= version.greatest_site() && tags.len() <= version.most_tags(),
        EditView::Delete { spans } => have_room(version, spans),
        EditView::Tag {
            on: _,
            name: _,
            spans,
        } => have_room(version, spans),
    }
}

/// Whether a version has room for an operation: for its site, those that it names, and its tags. The second has room for
/// each that keeps the rules of its fields.
pub fn fits(version: Version, op: OpView<'_>) -> bool
    ensures { result ≡ fits version (operation_in op.entry) }
{
    op.site() <= version.greatest_site() && has_room(version, op.edit)
}
