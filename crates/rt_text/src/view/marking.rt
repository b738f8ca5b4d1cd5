// The marks of a widget: the site's, and its own two.
ghost use Rattle.std.specs.Prelude.{◌≡◌, ◌⊎◌, ◌↔◌, false, is_some, if◌then◌else◌, ◌≤◌, Ok, Err, None, IfErr, OnOk, OnErr};
ghost use Rattle.rt_stamps.specs.Words.{as_words};
ghost use Rattle.rt_marks.specs.Marks.{IsName, mark_of_name, marks_set, marks_with_gravity, without_all};
ghost use Rattle.rt_text.specs.Widgets.{in_text, is_own, length_shown, own_place, widget_with_place, widget_with_gravity, with_marks};

use super::View;
use crate::OwnMark;
use rt_marks::Gravity;
use rt_stamps::Fault;
use rt_store::TextStore;

impl<S: TextStore> View<S> {
    /// Sets one of the widget's own marks at a place of what it shows, from 0 to as many as it shows, `insert` at
    /// most before the last newline ("mark set"). The mark keeps its gravity. It takes no memory.
    pub fn set_own(&mut self, which: OwnMark, place: usize)
        requires { place ≤ length_shown self.old }
        ensures { self.new ≡ record self.old {
          own = widget_with_place which (in_text self.old (own_place which (length_shown self.old) place)) self.old.own;
        } }
    {
        let stretch = self.stretch();
        let last = stretch.end - 1;
        let place = match which {
            OwnMark::Insert => (stretch.begin + place).min(last),
            OwnMark::Current => stretch.begin + place,
        };
        self.widget.set(which, place);
    }

    /// Gives one of the widget's own marks a gravity. It takes no memory.
    pub fn set_own_gravity(&mut self, which: OwnMark, gravity: Gravity)
        ensures { self.new ≡ record self.old { own = widget_with_gravity which gravity self.old.own } }
    {
        self.widget.set_gravity(which, gravity);
    }

    /// Sets a mark of the site at a place of what the widget shows, from 0 to as many as it shows ("mark set"). One that is there keeps its gravity, and
    /// takes no memory; a new one has right gravity. `BadName` for a name that is empty or longer
    /// than `MOST_NAME_BYTES` bytes, and else `NoMemory` for a new name alone; then nothing changes.
    pub fn set_mark(&mut self, name: &str, place: usize) -> Result<(), Fault>
        requires place { place ≤ length_shown self.old }
        requires other { is_own name.now ≡ false }
        ensures ok { OnOk result (self.new ≡ with_marks self.old (marks_set name.now (in_text self.old place) self.old.doc.marks)) }
        ensures unchanged { OnErr result (self.new ≡ self.old) }
        ensures bad_name { (result ≡ Err Fault.BadName) ↔ (IsName name.now → ⊥) }
        ensures memory { result ≡ Err Fault.NoMemory → mark_of_name name.now self.old.doc.marks ≡ None }
        ensures fault { IfErr result (λ fault. (fault ≡ Fault.BadName) ⊎ (fault ≡ Fault.NoMemory)) }
    {
        let begin = self.stretch().begin;
        self.doc.set_mark(name, begin + place)
    }

    /// Takes marks of the site away ("mark unset"). Names without a mark are passed over. It takes no
    /// memory.
    pub fn unset_marks(&mut self, names: &[String])
        ensures { self.new ≡ with_marks self.old (without_all (as_words names.now) self.old.doc.marks) }
    {
        self.doc.unset_marks(names);
    }

    /// Gives a mark of the site a gravity ("mark gravity"). `NoMark` just where the site has no mark
    /// of the name. It takes no memory.
    pub fn set_mark_gravity(&mut self, name: &str, gravity: Gravity) -> Result<(), Fault>
        ensures marks { self.new ≡ with_marks self.old (marks_with_gravity name.now gravity self.old.doc.marks) }
        ensures answer { result ≡ (if is_some (mark_of_name name.now self.old.doc.marks) then Ok tt else Err Fault.NoMark) }
    {
        self.doc.set_mark_gravity(name, gravity)
    }
}
