// What is asked of the undo mechanism, by calls that borrow the site.
ghost use Rattle.std.specs.Prelude.{◌≡◌};
ghost use Rattle.rt_undo.specs.Undo.{is_modified};
ghost use Rattle.rt_peers.specs.Step.{can_redo, can_undo};

use super::SiteState;

impl SiteState {
    /// Whether there is something to undo (Tk text manual, "edit canundo"): edits are recorded (that `-undo` counts is by
    /// Tk's code), and there is a group of them. Its widgets share it.
    pub fn can_undo(&self) -> bool
        ensures { result ≡ can_undo self.now.text }
    {
        self.text.can_undo()
    }

    /// Whether there is something to redo (Tk text manual, "edit canredo"): edits are recorded (that `-undo` counts is by
    /// Tk's code), and there is a group of them that was undone. Its widgets share it.
    pub fn can_redo(&self) -> bool
        ensures { result ≡ can_redo self.now.text }
    {
        self.text.can_redo()
    }

    /// The modified flag (Tk text manual, "edit modified"). Its widgets share it.
    pub fn is_modified(&self) -> bool
        ensures { result ≡ is_modified self.now.text.history }
    {
        self.text.is_modified()
    }
}
