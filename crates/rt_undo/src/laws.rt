// Laws of the definitions, each the contract of a function that does nothing.
ghost use Rattle.std.specs.Prelude.{◌≡◌, ◌≤◌, ◌<◌, ◌||◌, ◌++◌, ℕ, not, length, drop, take};
ghost use Rattle.rt_undo.specs.Undo.{UndoHistory, dropped, is_modified, limited, numbers, numbers_in, same_numbers, to_undo, too_many};

/// At most as many groups stay as may be, and the newest stay. No more are dropped than must be.
/// Where there are few enough, nothing changes. Where any number may be (0), nothing changes either.
pub fn newest_groups_stay()
    ensures most { (h : UndoHistory ℕ) → 0 < h.most → length (to_undo (limited h)) ≤ h.most }
    ensures full { (h : UndoHistory ℕ) → 0 < h.most → h.most ≤ length (to_undo h) → length (to_undo (limited h)) ≡ h.most }
    ensures newest { (h : UndoHistory ℕ) → to_undo (limited h) ≡ drop (too_many h) (to_undo h) }
    ensures few { (h : UndoHistory ℕ) → length (to_undo h) ≤ h.most → limited h ≡ h }
    ensures any { (h : UndoHistory ℕ) → h.most ≡ 0 → limited h ≡ h }
{}

/// Groups are dropped without changing the modified flag or the redo stack. Whatever can be undone later,
/// the flag is told as if the dropped groups still stood in front.
pub fn dropping_keeps_the_flag()
    ensures modified { (n : ℕ) (h : UndoHistory ℕ) → is_modified (dropped n h) ≡ is_modified h }
    ensures later { (n : ℕ) (h later : UndoHistory ℕ) → is_modified (record (dropped n h) { closed = later.closed; current = later.current })
        ≡ (h.forced || not (same_numbers (numbers_in (take n h.closed) ++ numbers later) h.kept)) }
    ensures undone { (n : ℕ) (h : UndoHistory ℕ) → (dropped n h).undone ≡ h.undone }
{}
