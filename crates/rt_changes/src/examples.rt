// Worked examples, each a clause that computes.
ghost use Rattle.std.specs.Prelude.{◌≡◌, true, false, List, [], ◌∷◌, codes};
ghost use Rattle.rt_rga.specs.Examples.{delete_b, insert_ab, insert_tagged_ab, insert_y, only_t, tag_off_by_1, tag_off_by_2, tag_on_by_1, tagged, text_with_tags};
ghost use Rattle.rt_changes.specs.Replays.{Deleted, Inserted, Tagged, all_changes};
ghost use Rattle.rt_changes.specs.Examples.{changes_after, delete_ab_d, insert_abcd, replayed_after, tag_off_all, tag_off_b};

/// Site 2's `Y` goes behind `a`, and site 1 takes `b` away, which stands one further then. A Delete of
/// what is gone changes nothing.
pub fn edits()
    ensures inserted { changes_after (insert_ab ∷ []) insert_y ≡ Inserted 1 (codes "Y") [] ∷ [] }
    ensures removed { changes_after (insert_ab ∷ insert_y ∷ []) delete_b ≡ Deleted 2 3 ∷ [] }
    ensures again { changes_after (insert_ab ∷ delete_b ∷ []) delete_b ≡ [] }
    ensures replayed { replayed_after (insert_ab ∷ insert_y ∷ []) delete_b
        ≡ text_with_tags (insert_ab ∷ insert_y ∷ delete_b ∷ []) }
{}

/// Site 1 takes the tag off `a`; site 2 did it at the same time, which changes nothing more. After
/// site 1 put it on again at a greater count, site 2's older write changes nothing.
pub fn tags()
    ensures off { changes_after (insert_tagged_ab ∷ []) tag_off_by_1 ≡ Tagged false (codes "t") 0 1 ∷ [] }
    ensures off_before { changes_after (insert_tagged_ab ∷ tag_off_by_1 ∷ []) tag_off_by_2 ≡ [] }
    ensures on { changes_after (insert_tagged_ab ∷ tag_off_by_1 ∷ []) tag_on_by_1 ≡ Tagged true (codes "t") 0 1 ∷ [] }
    ensures older { changes_after (insert_tagged_ab ∷ tag_off_by_1 ∷ tag_on_by_1 ∷ []) tag_off_by_2 ≡ [] }
    ensures replayed { replayed_after (insert_tagged_ab ∷ []) tag_off_by_1
        ≡ tagged (codes "a") [] ∷ tagged (codes "b") only_t ∷ tagged (codes "\n") [] ∷ [] }
{}

/// Runs come the last in the text first, and a Tag's leave out what has no tag to lose. What is offered
/// too early or again changes nothing.
pub fn runs()
    ensures removed { changes_after (insert_abcd ∷ []) delete_ab_d ≡ Deleted 3 4 ∷ Deleted 0 2 ∷ [] }
    ensures left { replayed_after (insert_abcd ∷ []) delete_ab_d ≡ tagged (codes "c") only_t ∷ tagged (codes "\n") [] ∷ [] }
    ensures untagged { changes_after (insert_abcd ∷ tag_off_b ∷ []) tag_off_all
        ≡ Tagged false (codes "t") 2 4 ∷ Tagged false (codes "t") 0 1 ∷ [] }
    ensures offers { all_changes (insert_y ∷ insert_ab ∷ insert_y ∷ insert_y ∷ []) []
        ≡ Inserted 0 (codes "ab") [] ∷ Inserted 1 (codes "Y") [] ∷ [] }
{}
