// The site's marks.
ghost use Rattle.std.specs.Prelude.{◌≡◌, ◌⊎◌, ◌↔◌, false, is_some, if◌then◌else◌, ◌≤◌, Ok, Err, None, IfErr, OnOk, OnErr, length};
ghost use Rattle.rt_stamps.specs.Words.{as_words};
ghost use Rattle.rt_marks.specs.Marks.{IsName, mark_of_name, marks_set, marks_with_gravity, without_all};
ghost use Rattle.rt_store.specs.Cells.{text_of};
ghost use Rattle.rt_text.specs.Widgets.{AreSiteMarks, is_own};

use super::Doc;
use rt_marks::{Gravity, Marks};
use rt_stamps::Fault;
use rt_store::TextStore;

impl<S: TextStore> Doc<S> {
    /// The site's marks. A widget's own marks aren't among them.
    pub fn marks(&self) -> &Marks
        ensures value { result.now ≡ self.now.marks }
        ensures site { AreSiteMarks (length (text_of self.now.cells)) self.now.marks }
    {
        &self.marks
    }

    /// Sets a mark of the site at a place ("mark set"). One that is there keeps its gravity, and
    /// takes no memory; a new one has right gravity. `BadName` for a name that is empty or longer
    /// than `MOST_NAME_BYTES` bytes, and else `NoMemory` for a new name alone; then nothing changes.
    pub fn set_mark(&mut self, name: &str, place: usize) -> Result<(), Fault>
        requires place { place ≤ length (text_of self.old.cells) }
        requires other { is_own name.now ≡ false }
        ensures ok { OnOk result (self.new ≡ record self.old { marks = marks_set name.now place self.old.marks }) }
        ensures unchanged { OnErr result (self.new ≡ self.old) }
        ensures bad_name { (result ≡ Err Fault.BadName) ↔ (IsName name.now → ⊥) }
        ensures memory { result ≡ Err Fault.NoMemory → mark_of_name name.now self.old.marks ≡ None }
        ensures fault { IfErr result (λ fault. (fault ≡ Fault.BadName) ⊎ (fault ≡ Fault.NoMemory)) }
    {
        self.marks.set(name, place)
    }

    /// Takes marks of the site away ("mark unset"). Names without a mark are passed over. It takes no
    /// memory.
    pub fn unset_marks(&mut self, names: &[String])
        ensures { self.new ≡ record self.old { marks = without_all (as_words names.now) self.old.marks } }
    {
        self.marks.unset_all(names);
    }

    /// Gives a mark of the site a gravity ("mark gravity"). `NoMark` just where the site has no mark
    /// of the name. It takes no memory.
    pub fn set_mark_gravity(&mut self, name: &str, gravity: Gravity) -> Result<(), Fault>
        ensures marks { self.new ≡ record self.old { marks = marks_with_gravity name.now gravity self.old.marks } }
        ensures answer { result ≡ (if is_some (mark_of_name name.now self.old.marks) then Ok tt else Err Fault.NoMark) }
    {
        self.marks.set_gravity(name, gravity)
    }
}
