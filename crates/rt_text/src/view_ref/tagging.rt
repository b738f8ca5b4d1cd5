// Which characters of the text that a widget shows have tags.
ghost use Rattle.std.specs.Prelude.{◌≡◌, ◌<◌, Some, IfOk, IsOkUnless, length, not, option_map, slice_get};
ghost use Rattle.rt_stamps.specs.Words.{as_words};
ghost use Rattle.rt_store.specs.Tagged.{next_place, previous_place};
ghost use Rattle.rt_text.specs.Widgets.{shows_tag, cells_shown, tags_shown};

use super::ViewRef;
use rt_stamps::Fault;
use rt_store::TextStore;

impl<'a, S: TextStore> ViewRef<'a, S> {
    /// The least place from one up whose character has a tag; none if there is none. Places are those of what the
    /// widget shows, from 0. It takes no memory.
    pub fn next_tagged(&self, name: &str, place: usize) -> Option<usize>
        ensures { result ≡ next_place (shows_tag self.now.own name.now) (cells_shown self.now) place }
    {
        self.doc.next_tagged(self.widget, name, place)
    }

    /// The least place from one up whose character hasn't a tag; none if there is none. Places are those of what the
    /// widget shows, from 0. It takes no memory.
    pub fn next_untagged(&self, name: &str, place: usize) -> Option<usize>
        ensures { result ≡ next_place (λ cell. not (shows_tag self.now.own name.now cell)) (cells_shown self.now) place }
    {
        self.doc.next_untagged(self.widget, name, place)
    }

    /// The greatest place below one whose character has a tag; none if there is none. Places are those of what the
    /// widget shows, from 0. It takes no memory.
    pub fn previous_tagged(&self, name: &str, place: usize) -> Option<usize>
        ensures { result ≡ previous_place (shows_tag self.now.own name.now) (cells_shown self.now) place }
    {
        self.doc.previous_tagged(self.widget, name, place)
    }

    /// The listed tags of the character at a place of what the widget shows, from 0 and below `visible`, lowest
    /// priority first (Tk text manual, "tag names"). Want of memory.
    pub fn tags_at(&self, place: usize) -> Result<Vec<String>, Fault>
        requires { place < length (cells_shown self.now) }
        ensures ok { IfOk result (λ names. option_map (tags_shown self.now.own self.now.doc.tags) (slice_get (cells_shown self.now) place)
            ≡ Some (as_words names.items)) }
        ensures err { IsOkUnless result Fault.NoMemory }
    {
        self.doc.tags_at(self.widget, place)
    }
}
