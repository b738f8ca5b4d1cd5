// The nearest characters that have a tag, or haven't it.
ghost use Rattle.std.specs.Prelude.{◌≡◌, ◌+◌, ◌*◌, ◌<◌, ◌≤◌, ◌^◌, IfSome};
ghost use Rattle.rt_store.specs.Cells.{visible_of};
ghost use Rattle.rt_store.specs.Tagged.{next_place, next_tagged, next_untagged, previous_tagged, tag_is};
ghost use Rattle.rt_tags.specs.States.{IsTag};
ghost use Rattle.rt_tree.specs.Trees.{AgreesWithTable};

use super::Tree;
use crate::back::previous_place;
use crate::reach::{Wanted, next_place};
use crate::seeks::find_tagged;
use rt_tags::{StateTable, TagId};

impl Tree {
    // The least place from one up whose character has a tag, or hasn't it.
    fn next_wanted(&self, states: &StateTable, tag: TagId, on: bool, place: usize) -> Option<usize>
        requires tag { IsTag states.now tag }
        requires agrees { AgreesWithTable states.now self.now }
        ensures { result ≡ next_place (tag_is states.now tag on) (visible_of self.now.cells) place }
    {
        let wanted = Wanted { tag, on };
        next_place(
            &self.mem,
            &self.sums.each,
            states,
            &wanted,
            self.root,
            place,
        )
    }

    /// The least place from one up whose character has a tag; none if there is none. It looks into two nodes a level at most.
    pub fn next_tagged(&self, states: &StateTable, tag: TagId, place: usize) -> Option<usize>
        requires tag { IsTag states.now tag }
        requires agrees { AgreesWithTable states.now self.now }
        ensures { result ≡ next_tagged states.now tag self.now.cells place }
    {
        self.next_wanted(states, tag, true, place)
    }

    /// The place that `next_tagged` answers, with at most thirty-two looks a level added to the counter, and at least one a
    /// level where there is such a place.
    pub fn find_tagged(
        &self,
        states: &StateTable,
        tag: TagId,
        place: usize,
        looks: &mut u64,
    ) -> Option<usize>
        requires tag { IsTag states.now tag }
        requires agrees { AgreesWithTable states.now self.now }
        requires room { looks.old + 32 * self.now.height < 2 ^ 64 }
        ensures place { result ≡ next_tagged states.now tag self.now.cells place }
        ensures counted { looks.old ≤ looks.new }
        ensures looked { IfSome result (λ _. looks.old + self.now.height ≤ looks.new) }
        ensures cost { looks.new ≤ looks.old + 32 * self.now.height }
    {
        find_tagged(
            &self.mem,
            &self.sums.each,
            states,
            self.root,
            tag,
            place,
            looks,
        )
    }

    /// The least place from one up whose character hasn't a tag; none if there is none. It looks into two nodes a level at most.
    pub fn next_untagged(&self, states: &StateTable, tag: TagId, place: usize) -> Option<usize>
        requires tag { IsTag states.now tag }
        requires agrees { AgreesWithTable states.now self.now }
        ensures { result ≡ next_untagged states.now tag self.now.cells place }
    {
        self.next_wanted(states, tag, false, place)
    }

    /// The greatest place below one whose character has a tag; none if there is none. It looks into two nodes a level at most.
    pub fn previous_tagged(&self, states: &StateTable, tag: TagId, place: usize) -> Option<usize>
        requires tag { IsTag states.now tag }
        requires agrees { AgreesWithTable states.now self.now }
        ensures { result ≡ previous_tagged states.now tag self.now.cells place }
    {
        let wanted = Wanted { tag, on: true };
        previous_place(
            &self.mem,
            &self.sums.each,
            states,
            &wanted,
            self.root,
            place,
        )
    }
}
