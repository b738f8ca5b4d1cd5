// Borders between neighbours, counted.
ghost use Rattle.std.specs.Prelude.{◌≡◌, ℕ, ◌+◌, ◌<◌, ◌≤◌, ◌^◌, IfSome, length};
ghost use Rattle.rt_tags.specs.Borders.{HasRoomForAll, beyond, border, is_tagged};
ghost use Rattle.rt_tags.specs.States.{IsState, IsTag};
ghost use Rattle.rt_tags.specs.Toggles.{count_of};

use crate::states::{StateId, StateTable};
use crate::toggles::Toggles;

impl Toggles {
    // One toggle more of each tag that is on in one of two states alone.
    fn add_between(&mut self, states: &StateTable, before: StateId, after: StateId)
        requires before { IsState states.now before }
        requires after { IsState states.now after }
        requires room { HasRoomForAll states.now self.old }
        requires few { (tag : ℕ) → count_of tag self.old + 2 < 2 ^ 32 }
        ensures given { (tag : ℕ) → IsTag states.now tag → count_of tag self.new ≡ count_of tag self.old
            + (beyond (is_tagged states.now tag before) (is_tagged states.now tag after)
            + beyond (is_tagged states.now tag after) (is_tagged states.now tag before)) }
        ensures others { (tag : ℕ) → length states.now.names ≤ tag → count_of tag self.new ≡ count_of tag self.old }
        ensures capacity { self.new.capacity ≡ self.old.capacity }
    {
        if before == after {
            return;
        }
        states.count_beyond(self, before, after);
        states.count_beyond(self, after, before);
    }

    /// The borders between two neighbours are counted too, by their states: one of each tag that one of
    /// them has and the other hasn't; none where there is no neighbour. It takes no memory.
    pub fn add_border(
        &mut self,
        states: &StateTable,
        before: Option<StateId>,
        after: Option<StateId>,
    )
        requires before { IfSome before (IsState states.now) }
        requires after { IfSome after (IsState states.now) }
        requires room { HasRoomForAll states.now self.old }
        requires few { (tag : ℕ) → count_of tag self.old + 2 < 2 ^ 32 }
        ensures given { (tag : ℕ) → IsTag states.now tag
            → count_of tag self.new ≡ count_of tag self.old + border (is_tagged states.now tag) before after }
        ensures others { (tag : ℕ) → length states.now.names ≤ tag → count_of tag self.new ≡ count_of tag self.old }
        ensures capacity { self.new.capacity ≡ self.old.capacity }
    {
        match before {
            None => {}
            Some(before) => match after {
                None => {}
                Some(after) => self.add_between(states, before, after),
            },
        }
    }
}
