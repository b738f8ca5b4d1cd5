// Many marks are taken away at once.
ghost use Rattle.std.specs.Prelude.{◌≡◌, ◌<◌, ◌≤◌, ◌&&◌, Bool, filter, length, nat_lt, not, swap};
ghost use Rattle.rt_stamps.specs.Words.{as_words};
ghost use Rattle.rt_marks.specs.Marks.{Mark, is_named, without_all};
ghost use Rattle.rt_marks.specs.Seen.{SlotsPart};

use super::Table;

impl Table {
    ghost use Rattle.rt_marks.specs.Tables.{IsMarkTable, marks_in_table, slots_of};

    /// Exchanges the marks of two slots, and their numbers in both lists: the marks stay.
    fn swap_slots(&mut self, a: usize, b: usize)
        requires table { IsMarkTable self.old }
        requires a { a < length (slots_of self.old) }
        requires b { b < length (slots_of self.old) }
        ensures table { IsMarkTable self.new }
        ensures marks { marks_in_table self.new ≡ marks_in_table self.old }
        ensures slots { slots_of self.new ≡ swap (slots_of self.old) a b }
    {
        let a_rank = self.rank_of(a);
        let b_rank = self.rank_of(b);
        let a_at = self.count_before(&self.marks[a]);
        let b_at = self.count_before(&self.marks[b]);
        self.by_name.swap(a_rank, b_rank);
        self.in_order.swap(a_at, b_at);
        self.marks.swap(a, b);
    }

    /// Puts the mark of a name behind the first `kept` slots, if it stands in one of them, and
    /// answers how many of these are left.
    fn put_behind(&mut self, name: &str, kept: usize) -> usize
        requires table { IsMarkTable self.old }
        requires within { kept ≤ length (slots_of self.old) }
        ensures table { IsMarkTable self.new }
        ensures marks { marks_in_table self.new ≡ marks_in_table self.old }
        ensures within { result ≤ length (slots_of self.new) }
        ensures parted { (test : Mark → Bool) → SlotsPart test (slots_of self.old) kept
            → SlotsPart (λ m. test m && not (is_named name.now m)) (slots_of self.new) result }
    {
        match self.find_slot(name) {
            Ok(slot) if slot < kept => {
                self.swap_slots(slot, kept - 1);
                kept - 1
            }
            _ => kept,
        }
    }

    /// Takes away the marks that stand behind the first `kept` slots.
    fn cut(&mut self, kept: usize)
        requires table { IsMarkTable self.old }
        requires within { kept ≤ length (slots_of self.old) }
        ensures table { IsMarkTable self.new }
        ensures marks { (test : Mark → Bool) → SlotsPart test (slots_of self.old) kept
            → marks_in_table self.new ≡ filter test (marks_in_table self.old) }
    {
        self.by_name.retain(|slot| *slot < kept);
        self.in_order.retain(|slot| *slot < kept);
        self.marks.truncate(kept);
    }

    /// Takes away the marks of some names: they are put behind the others one by one, and then cut off
    /// at once.
    pub fn remove_all(&mut self, names: &[String])
        requires { IsMarkTable self.old }
        ensures table { IsMarkTable self.new }
        ensures marks { marks_in_table self.new ≡ without_all (as_words names.now) (marks_in_table self.old) }
    {
        let mut kept = self.marks.len();
        for name in names {
            kept = self.put_behind(name, kept);
        }
        self.cut(kept);
    }
}
