// Worked examples of the definitions, each a clause that computes.
ghost use Rattle.std.specs.Prelude.{◌≡◌, ℕ, [], ◌∷◌, true, false, None, Some};
ghost use Rattle.rt_undo.specs.Examples.{at_count, nothing_done, both_undone, cut, last_undone, lowered_to_one, one_at_most, swapped, two_typed, typed, typed_and_cut, undone_after, untyped};
ghost use Rattle.rt_undo.specs.Undo.{with_action, renamed_span, emptied, forced_on, is_modified, next_redo, next_undo, no_history, redo_done, separated, to_undo, undo_done, unmodified, with_most};

/// What is typed in one go is one group. Of two separators the second changes nothing. With automatic
/// separators a removal after that begins a group, and so does each of two replacements; without them
/// all is one group.
pub fn groups()
    ensures one_go { to_undo two_typed ≡ (typed 1 ∷ typed 2 ∷ []) ∷ [] }
    ensures separator { to_undo (with_action true (typed 2) (separated (separated (with_action true (typed 1) no_history))))
        ≡ (typed 1 ∷ []) ∷ (typed 2 ∷ []) ∷ [] }
    ensures other_kind { to_undo typed_and_cut ≡ (typed 1 ∷ []) ∷ (cut 2 1 ∷ []) ∷ [] }
    ensures replacements { to_undo (with_action true (swapped 3 2) (with_action true (swapped 1 9) no_history))
        ≡ (swapped 1 9 ∷ []) ∷ (swapped 3 2 ∷ []) ∷ [] }
    ensures without { to_undo (with_action false (cut 2 1) (with_action false (typed 1) no_history)) ≡ (typed 1 ∷ cut 2 1 ∷ []) ∷ [] }
{}

/// A new history has nothing to undo or redo. After one action its group is undone next. When it is
/// undone, its reverted actions are redone next, and the next action begins a group, which can't be
/// joined to an older one, and takes the redo stack away.
pub fn undo_and_redo()
    ensures none { next_undo nothing_done ≡ None }
    ensures nor_redo { next_redo nothing_done ≡ None }
    ensures one { next_undo (with_action true (typed 1) no_history) ≡ Some (typed 1 ∷ []) }
    ensures last { next_undo typed_and_cut ≡ Some (cut 2 1 ∷ []) }
    ensures undone { next_undo (undo_done (typed 3 ∷ []) typed_and_cut) ≡ Some (typed 1 ∷ []) }
    ensures to_redo { next_redo (undo_done (typed 3 ∷ []) typed_and_cut) ≡ Some (typed 3 ∷ []) }
    ensures begins { to_undo (with_action true (typed 4) (undo_done (typed 3 ∷ []) typed_and_cut)) ≡ (typed 1 ∷ []) ∷ (typed 4 ∷ []) ∷ [] }
    ensures cleared { next_redo (with_action true (typed 4) (undo_done (typed 3 ∷ []) typed_and_cut)) ≡ None }
    ensures redone { to_undo (with_action true (typed 5) (redo_done (typed 3 ∷ []) (undo_done (untyped 1 1 ∷ []) two_typed)))
        ≡ (typed 3 ∷ []) ∷ (typed 5 ∷ []) ∷ [] }
{}

/// An action modifies a text that was said to be unmodified, and so does undo. Redo brings it back to
/// what it was; another action in the place of the one that was undone doesn't, though there are as many.
/// Where both stacks are emptied the flag stays.
pub fn modified_flag()
    ensures new { is_modified nothing_done ≡ false }
    ensures action { is_modified two_typed ≡ true }
    ensures unmodified { is_modified (unmodified two_typed) ≡ false }
    ensures undone { is_modified undone_after ≡ true }
    ensures redone { is_modified (redo_done (typed 1 ∷ []) undone_after) ≡ false }
    ensures another { is_modified (with_action true (typed 3) undone_after) ≡ true }
    ensures emptied_modified { is_modified (emptied undone_after) ≡ true }
    ensures emptied_unmodified { is_modified (emptied (unmodified two_typed)) ≡ false }
    ensures forced { is_modified (forced_on (unmodified two_typed)) ≡ true }
{}

/// At most one group: a character is typed and removed, and just the removal can be undone. After that
/// nothing can, and the text is modified still: the character isn't undone. The redo stack isn't cut, but
/// what is redone counts: of two groups the second takes the place of the first.
pub fn most_groups()
    ensures one { to_undo one_at_most ≡ (cut 2 1 ∷ []) ∷ [] }
    ensures undone { next_undo (undo_done (typed 3 ∷ []) one_at_most) ≡ None }
    ensures modified { is_modified (undo_done (typed 3 ∷ []) one_at_most) ≡ true }
    ensures open { to_undo (with_action true (typed 2) (with_action true (typed 1) (with_most 1 no_history))) ≡ (typed 1 ∷ typed 2 ∷ []) ∷ [] }
    ensures lowered { to_undo (with_most 2 (with_action true (typed 3) typed_and_cut)) ≡ (cut 2 1 ∷ []) ∷ (typed 3 ∷ []) ∷ [] }
    ensures any { to_undo (with_most 0 typed_and_cut) ≡ (typed 1 ∷ []) ∷ (cut 2 1 ∷ []) ∷ [] }
    ensures to_redo { next_redo (with_most 1 both_undone) ≡ Some (untyped 1 3 ∷ []) }
    ensures redone { to_undo (redo_done (cut 2 4 ∷ []) (redo_done (typed 4 ∷ []) (with_most 1 both_undone))) ≡ (cut 2 4 ∷ []) ∷ [] }
{}

/// A text that is said to be unmodified is so still when its oldest group is dropped. It is modified when
/// another group is undone, and unmodified when that is redone. A text that isn't what it was when it was
/// said to be unmodified is modified when a group is dropped, and unmodified once what is missing is redone.
pub fn flag_after_dropping()
    ensures unmodified { is_modified lowered_to_one ≡ false }
    ensures action { is_modified (with_action true (typed 3) lowered_to_one) ≡ true }
    ensures undone { is_modified (undo_done (typed 3 ∷ []) lowered_to_one) ≡ true }
    ensures redone { is_modified (redo_done (cut 2 3 ∷ []) (undo_done (typed 3 ∷ []) lowered_to_one)) ≡ false }
    ensures fewer { to_undo (with_most 1 last_undone) ≡ (typed 2 ∷ []) ∷ [] }
    ensures modified { is_modified (with_most 1 last_undone) ≡ true }
    ensures as_it_was { is_modified (redo_done (typed 3 ∷ []) (with_most 1 last_undone)) ≡ false }
{}

/// A character is typed and removed. The removal is undone, so the character comes back under another
/// stamp: that stands in both groups, and the insertion can be undone too.
pub fn characters_that_come_back()
    ensures below { next_undo (undo_done (typed 3 ∷ []) (renamed_span (record { site = 1; first = 1; last = 1 }) (at_count 3) typed_and_cut))
        ≡ Some (record (typed 3) { number = 1 } ∷ []) }
    ensures in_hand { next_undo (renamed_span (record { site = 1; first = 1; last = 1 }) (at_count 3) typed_and_cut) ≡ Some (cut 2 3 ∷ []) }
    ensures others { renamed_span (record { site = 2; first = 1; last = 9 }) (at_count 3) typed_and_cut ≡ typed_and_cut }
{}
