// Worked examples of the definitions, each a clause that computes.
ghost use Rattle.std.specs.Prelude.{◌≡◌, true, false, List, [], ◌∷◌, codes, Ok, Err};
ghost use Rattle.rt_stamps.specs.declared.fault.Fault.TheVariants.{BadStamp, BadTarget, Conflict, NotYet, TextFull};
ghost use Rattle.rt_store.specs.Cells.{text_of};
ghost use Rattle.rt_ops.specs.Operations.{Delete};
ghost use Rattle.rt_oplog.specs.Logs.{joined};
ghost use Rattle.rt_ops.specs.Examples.{span};
ghost use Rattle.rt_rga.specs.Answers.{New, Refused, Repeat, answer_to, answer_within};
ghost use Rattle.rt_rga.specs.Cells.{cells_of};
ghost use Rattle.rt_rga.specs.Changes.{changed};
ghost use Rattle.rt_rga.specs.Drafts.{next_operation};
ghost use Rattle.rt_rga.specs.Orders.{is_made_upon};
ghost use Rattle.rt_rga.specs.Requests.{Make, after_requests};
ghost use Rattle.rt_rga.specs.Examples.{asked_of_1, cells_after, delete_b, delete_final, insert_ab, insert_after_delete, insert_after_itself, insert_after_zero, insert_b, insert_q, insert_tagged_ab, insert_xx, insert_y, insert_z, only_t, tag_final, tag_off_by_1, tag_off_by_2, tag_off_by_2_later, tag_on_by_1, tagged, tagged_after, text_after, text_with_tags};

/// Two sites insert at one place: the greater stamp stands first, at each site, in whatever order they
/// come. An insertion beside a character that another site removed keeps its place.
pub fn insertions()
    ensures both { text_after (insert_ab ∷ insert_xx ∷ insert_y ∷ []) ≡ codes "aYXXb\n" }
    ensures other_order { text_after (insert_ab ∷ insert_y ∷ insert_xx ∷ []) ≡ codes "aYXXb\n" }
    ensures one_by_one { changed insert_xx (cells_after (insert_ab ∷ insert_y ∷ [])) ≡ changed insert_y (cells_after (insert_ab ∷ insert_xx ∷ [])) }
    ensures beside_removed { text_after (insert_ab ∷ delete_b ∷ insert_z ∷ []) ≡ codes "aZ\n" }
    ensures removed_beside { text_after (insert_ab ∷ insert_z ∷ delete_b ∷ []) ≡ codes "aZ\n" }
{}

/// A tag that is put on at (4,1) is on though site 2 took it off at (3,2), and it is off if site 2 took
/// it off at (4,2), in whatever order they come.
pub fn tags()
    ensures on_last { tagged_after (insert_tagged_ab ∷ tag_off_by_1 ∷ tag_on_by_1 ∷ tag_off_by_2 ∷ []) ≡ true ∷ true ∷ false ∷ [] }
    ensures on_first { tagged_after (insert_tagged_ab ∷ tag_off_by_2 ∷ tag_off_by_1 ∷ tag_on_by_1 ∷ []) ≡ true ∷ true ∷ false ∷ [] }
    ensures off_last { tagged_after (insert_tagged_ab ∷ tag_off_by_1 ∷ tag_on_by_1 ∷ insert_q ∷ tag_off_by_2_later ∷ [])
        ≡ false ∷ true ∷ false ∷ false ∷ [] }
    ensures off_first { tagged_after (insert_tagged_ab ∷ insert_q ∷ tag_off_by_2_later ∷ tag_off_by_1 ∷ tag_on_by_1 ∷ [])
        ≡ false ∷ true ∷ false ∷ false ∷ [] }
    ensures text { text_with_tags (insert_tagged_ab ∷ tag_off_by_1 ∷ [])
        ≡ tagged (codes "a") [] ∷ tagged (codes "b") only_t ∷ tagged (codes "\n") [] ∷ [] }
    ensures visible { text_with_tags (insert_tagged_ab ∷ delete_b ∷ []) ≡ tagged (codes "a") only_t ∷ tagged (codes "\n") [] ∷ [] }
    ensures on_final { answer_to tag_final [] ≡ New }
{}

/// What comes again, too early, with a bad stamp or target, or in conflict, or for want of room.
pub fn answers()
    ensures again { answer_to insert_ab (insert_ab ∷ []) ≡ Repeat }
    ensures unknown_character { answer_to insert_y [] ≡ Refused NotYet }
    ensures in_time { answer_to insert_y (insert_ab ∷ []) ≡ New }
    ensures unknown_before { answer_to tag_on_by_1 (insert_tagged_ab ∷ []) ≡ Refused NotYet }
    ensures early { text_after (insert_y ∷ insert_ab ∷ insert_y ∷ insert_y ∷ []) ≡ codes "aYb\n" }
    ensures clash { answer_to insert_b (insert_ab ∷ []) ≡ Refused Conflict }
    ensures bad_stamp { answer_to insert_after_itself [] ≡ Refused BadStamp }
    ensures final_deleted { answer_to delete_final [] ≡ Refused BadTarget }
    ensures after_a_delete { answer_to insert_after_delete (delete_b ∷ insert_ab ∷ []) ≡ Refused BadTarget }
    ensures after_count_zero { answer_to insert_after_zero [] ≡ Refused BadTarget }
    ensures no_room { answer_within 2 insert_ab [] ≡ Refused TextFull }
    ensures room { answer_within 3 insert_ab [] ≡ New }
{}

/// A site's next count is above all that it knows: after `a`, `b` and the Delete of `b` it is 4. It goes
/// on from its own last one.
pub fn own_operations()
    ensures count { (next_operation 2 (Delete (span 1 1 1 ∷ [])) (delete_b ∷ insert_ab ∷ [])).count ≡ 4 }
    ensures first { (next_operation 2 (Delete (span 1 1 1 ∷ [])) (delete_b ∷ insert_ab ∷ [])).prev ≡ 0 }
    ensures second { (next_operation 1 (Delete (span 1 1 1 ∷ [])) (delete_b ∷ insert_ab ∷ [])).prev ≡ 3 }
{}

/// Which operations others were made upon.
pub fn bases()
    ensures previous { is_made_upon insert_ab delete_b ≡ true }
    ensures named { is_made_upon insert_ab insert_z ≡ true }
    ensures at_once { is_made_upon delete_b insert_z ≡ false }
    ensures tagged { is_made_upon insert_ab tag_on_by_1 ≡ true }
    ensures not_upon { is_made_upon insert_z delete_b ≡ false }
{}

/// Site 1 writes `ab`, takes `Y` of site 2, is offered its own operation again, and writes behind `a`. It
/// has no room for `ab` where it keeps two cells. Two sites' operations are joined, if they don't clash.
pub fn requests()
    ensures text { text_of (cells_of (after_requests 1 9 asked_of_1 [])) ≡ codes "aXXYb\n" }
    ensures no_room { after_requests 1 2 (Make (insert_ab.body ∷ []) ∷ []) [] ≡ [] }
    ensures joined { joined (insert_xx ∷ insert_ab ∷ []) (insert_y ∷ insert_ab ∷ []) ≡ Ok (insert_y ∷ insert_xx ∷ insert_ab ∷ []) }
    ensures clash { joined (insert_ab ∷ []) (insert_b ∷ []) ≡ Err Conflict }
{}
