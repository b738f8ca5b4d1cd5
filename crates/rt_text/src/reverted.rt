// What reverting a group came to.
use rt_revert::Return;
use rt_undo::Action;

/// What reverting a group came to: the characters that came back, and the group for the other stack.
#[derive(Drop)]
pub struct Reverted {
    pub returns: Vec<Return>,
    pub actions: Vec<Action>,
}
