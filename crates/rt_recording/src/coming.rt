// Characters that come back on the undo stacks.
ghost use Rattle.std.specs.Prelude.{◌≡◌, ◌+◌, ◌<◌, ◌≤◌, length};
ghost use Rattle.rt_stamps.specs.declared.stamp.Stamp.{Stamp};
ghost use Rattle.rt_undo.specs.Renames.{is_moved};
ghost use Rattle.rt_undo.specs.Undo.{renamed_by, replaced_in};
ghost use Rattle.rt_recording.specs.Returns.{AreReturns, IsReturn, back_after, back_with, stamp_after};

use rt_revert::Return;
use rt_undo::Stacks;

// A character came back. It takes no memory.
fn bring_one(stacks: &mut Stacks, back: &Return)
    requires room { 0 < stacks.old.moves.room }
    requires first_time { IsReturn (is_moved stacks.old.moves) back.now }
    ensures history { stacks.new.history ≡ replaced_in back.now.former back.now.newer stacks.old.history }
    ensures moves { (stamp : Stamp) → is_moved stacks.new.moves stamp ≡ back_with back.now (is_moved stacks.old.moves) stamp }
    ensures ready { stacks.new.ready ≡ stacks.old.ready }
    ensures room { stacks.new.moves.room + 1 ≡ stacks.old.moves.room }
{
    stacks.replaced(back.former, back.newer);
}

/// Characters came back, one after the other. It takes no memory.
pub(crate) fn bring_back(stacks: &mut Stacks, returns: &[Return])
    requires room { length returns.now ≤ stacks.old.moves.room }
    requires returns { AreReturns (is_moved stacks.old.moves) returns.now }
    ensures history { stacks.new.history ≡ renamed_by (stamp_after returns.now) stacks.old.history }
    ensures moves { (stamp : Stamp) → is_moved stacks.new.moves stamp ≡ back_after returns.now (is_moved stacks.old.moves) stamp }
    ensures ready { stacks.new.ready ≡ stacks.old.ready }
{
    for back in returns {
        bring_one(stacks, back);
    }
}
