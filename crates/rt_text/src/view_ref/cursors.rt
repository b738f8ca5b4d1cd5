// Places by stamps, and stamps by places.
ghost use Rattle.std.specs.Prelude.{◌≡◌};
ghost use Rattle.rt_text.specs.Cursors.{place_of_stamp, stamp_at};

use super::ViewRef;
use rt_stamps::Stamp;
use rt_store::TextStore;

impl<'a, S: TextStore> ViewRef<'a, S> {
    /// The stamp of the character at a place of what the widget shows, counted from where that begins, from 0; none from
    /// its end on. It takes no memory.
    pub fn stamp_at(&self, place: usize) -> Option<Stamp>
        ensures { result ≡ stamp_at self.now.own.limits place self.now.doc.cells }
    {
        let stretch = self.doc.stretch(self.widget.limits());
        if place >= stretch.end - stretch.begin {
            return None;
        }
        let (store, _) = self.doc.kept();
        Some(store.cell_at(stretch.begin + place).stamp)
    }

    /// The place of the character of a stamp in what the widget shows, counted from where that begins: how many
    /// characters stand before it, whether it is gone or not. What stands outside is brought to the nearer end. None if no
    /// cell has the stamp. It takes no memory.
    pub fn place_of_stamp(&self, stamp: Stamp) -> Option<usize>
        ensures { result ≡ place_of_stamp self.now.own.limits stamp self.now.doc.cells }
    {
        let stretch = self.doc.stretch(self.widget.limits());
        let (store, _) = self.doc.kept();
        let place = store.place_of(stamp)?;
        Some(stretch.place(place))
    }
}
