// What a widget of a site shows, by values; places by stamps, and stamps by places.
ghost use Rattle.std.specs.Prelude.{◌≡◌, Err, IfErr, IfOk, None, Ok};
ghost use Rattle.rt_stamps.specs.Outcomes.{Refuses};
ghost use Rattle.rt_peers.specs.Cursors.{index_by, stamp_place_by, stamp_by, widget_by};
ghost use Rattle.rt_peers.specs.SiteValue.{number_of_path};

use super::SiteState;
use crate::paths::number_of;
use rt_stamps::{Fault, Stamp};
use rt_text::ViewRef;
use rt_tree::TreeStore;

impl SiteState {
    /// What the widget of a path shows, borrowed: of it positions, ranges, counts, texts and truth are asked by values, by its
    /// own calls and by those of rt_tagcmd (`mark_names`, `tag_ranges`, `search`, `dump` and the others that change nothing).
    /// What they answer is what `answer` has the words of (`laws::telling`). Its `stretch` tells which places of the whole
    /// text are shown, as what is told of changes speaks of these (`answer_telling`, `receive_telling`), and the lines of a
    /// widget with limits move with it. None where there is no such widget. It takes no memory.
    pub fn widget(&self, path: &str) -> Option<ViewRef<'_, TreeStore>>
        ensures { result ≡ widget_by path.now self.now }
    {
        let number = number_of(&self.paths, path)?;
        Some(self.text.widget(number))
    }

    /// The place of an index (Tk text manual, "Indices") in what the widget of a path shows, counted from where that begins,
    /// from 0 to how many characters it shows. Refused by the first of `NoWidget` and the faults of an index, `BadIndex` and
    /// `NoneTagged`, or for want of memory in place of any but `NoWidget`.
    pub fn place_of_index(&self, path: &str, index: &str) -> Result<usize, Fault>
        ensures ok { IfOk result (λ place. index_by path.now index.now self.now ≡ Ok place) }
        ensures err { IfErr result (Refuses (index_by path.now index.now self.now)) }
        ensures none { number_of_path path.now self.now.paths ≡ None → result ≡ Err Fault.NoWidget }
    {
        match self.widget(path) {
            Some(widget) => widget.place(index),
            None => Err(Fault::NoWidget),
        }
    }

    /// The stamp of the character at a place of what the widget of a path shows, counted from where that begins, from 0.
    /// None from its end on, or where there is no such widget. The stamp stays that character's for good, on every site. It
    /// takes no memory.
    pub fn stamp_at(&self, path: &str, place: usize) -> Option<Stamp>
        ensures { result ≡ stamp_by path.now place self.now }
    {
        self.widget(path)?.stamp_at(place)
    }

    /// The place of the character of a stamp in what the widget of a path shows, counted from where that begins: how many
    /// characters stand before it, whether it is gone or not. So a cursor of another site, or the anchor of a comment, is
    /// found after any edits. What stands outside is brought to the nearer end. None where the site has no character of the
    /// stamp, or where there is no such widget. It takes no memory.
    pub fn place_of(&self, path: &str, stamp: Stamp) -> Option<usize>
        ensures { result ≡ stamp_place_by path.now stamp self.now }
    {
        self.widget(path)?.place_of_stamp(stamp)
    }
}
