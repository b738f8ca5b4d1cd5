// The tags of the text that a widget shows: how they are put on and taken off.
ghost use Rattle.std.specs.Prelude.{◌≡◌, ◌⊎◌, if◌then◌else◌, ◌<◌, ◌&&◌, Ok, Err, None, Some, IfOk, IfErr, IsOkUnless, OnOk, OnErr, length, not, option_copied, option_map, slice_get};
ghost use Rattle.rt_stamps.specs.Words.{as_words};
ghost use Rattle.rt_tags.specs.Tags.{IsName, is_listed, is_place, lowered, raised};
ghost use Rattle.rt_text.specs.Commands.{clock_check, with_tag_in, with_tags_deleted};
ghost use Rattle.rt_text.specs.Widgets.{shows_tag, cells_shown, tags_shown, with_tags};

use super::View;
use rt_plans::Range;
use rt_plans::removal::ranges_shown;
use rt_stamps::Fault;
use rt_store::TextStore;

impl<S: TextStore> View<S> {
    /// Puts a tag on the characters in ranges of places of what the widget shows, or takes it off ("tag add", "tag remove"):
    /// `sel` is the widget's own, any other one is the text's. One that is put on is listed, also
    /// where no character gets it. `ClockSpent`, or want of memory, and then nothing changes. It takes
    /// one count for each 65,536 spans of stamps that it changes or a part of them; `sel` takes none.
    pub fn write_tag(&mut self, on: bool, name: &str, ranges: &[Range]) -> Result<(), Fault>
        requires { IsName name.now }
        ensures ok { OnOk result ((with_tag_in self.old on name.now ranges.now ≡ self.new) × (clock_check self.new.doc.count ≡ None)) }
        ensures err { IfErr result (λ fault. (fault ≡ Fault.NoMemory)
            ⊎ (clock_check (with_tag_in self.old on name.now ranges.now).doc.count ≡ Some fault)) }
        ensures unchanged { OnErr result (self.new ≡ self.old) }
    {
        let (store, _) = self.doc.kept();
        let stretch = self.widget.limits().stretch(store);
        let ranges = ranges_shown(self.alloc, stretch, ranges)?;
        if name == "sel" {
            return self.widget.select(self.alloc, store, &ranges, on);
        }
        let done = self.doc.write_shared(on, name, &ranges);
        // For its clauses alone.
        let _ = self.doc.log();
        done
    }

    /// Takes tags off all characters of the whole text, and lists them no longer ("tag delete"); `sel`
    /// is passed over. `ClockSpent`, or want of memory, and then nothing changes. It takes one count
    /// for each 65,536 spans of stamps of each tag or a part of them.
    pub fn delete_tags(&mut self, names: &[String]) -> Result<(), Fault>
        ensures ok { OnOk result ((self.new ≡ with_tags_deleted self.old (as_words names.now))
            × (clock_check self.new.doc.count ≡ None)) }
        ensures err { IfErr result (λ fault. (fault ≡ Fault.NoMemory)
            ⊎ (clock_check (with_tags_deleted self.old (as_words names.now)).doc.count ≡ Some fault)) }
        ensures unchanged { OnErr result (self.new ≡ self.old) }
    {
        // For its clauses alone.
        let _ = self.doc.kept();
        let done = self.doc.delete_tags(names);
        // For its clauses alone.
        let _ = self.doc.log();
        done
    }

    /// Raises a tag just above another, or above all ("tag raise"). `NoTag` just where one of them
    /// isn't listed, and then nothing changes. It takes no memory.
    pub fn raise_tag(&mut self, name: &str, above: Option<&str>) -> Result<(), Fault>
        ensures ok { OnOk result (self.new ≡ with_tags self.old (raised name.now (option_copied above.entry) self.old.doc.tags)) }
        ensures unchanged { OnErr result (self.new ≡ self.old) }
        ensures answer { result ≡ (if is_listed name.now self.old.doc.tags
            && is_place (option_copied above.entry) self.old.doc.tags then Ok tt else Err Fault.NoTag) }
    {
        self.doc.raise_tag(name, above)
    }

    /// Lowers a tag just below another, or below all ("tag lower"). `NoTag` just where one of them
    /// isn't listed, and then nothing changes. It takes no memory.
    pub fn lower_tag(&mut self, name: &str, below: Option<&str>) -> Result<(), Fault>
        ensures ok { OnOk result (self.new ≡ with_tags self.old (lowered name.now (option_copied below.entry) self.old.doc.tags)) }
        ensures unchanged { OnErr result (self.new ≡ self.old) }
        ensures answer { result ≡ (if is_listed name.now self.old.doc.tags
            && is_place (option_copied below.entry) self.old.doc.tags then Ok tt else Err Fault.NoTag) }
    {
        self.doc.lower_tag(name, below)
    }
}
