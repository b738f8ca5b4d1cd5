// Text that is put in.
ghost use Rattle.std.specs.Prelude.{◌≡◌, true};
ghost use Rattle.std.specs.Str.{is_utf8};

use rt_lines::Stretch;
use rt_plans::Piece;

/// New text, and where it goes: before the character at a place of the stretch that a widget shows. Pieces of
/// text, each with its list of tags, come first, and then characters without a list.
#[derive(Clone, Copy)]
pub(crate) struct NewText<'a> {
    pub stretch: Stretch,
    pub place: usize,
    pub pieces: &'a [Piece],
    pub rest: &'a str,
    ghost utf8: { is_utf8 rest.now ≡ true },
}
