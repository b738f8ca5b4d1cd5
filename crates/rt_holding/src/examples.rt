// Worked examples of the definitions: each clause is computed.
ghost use Rattle.std.specs.Prelude.{◌≡◌, true, false, List, [], ◌∷◌, codes, map, length};
ghost use Rattle.rt_stamps.specs.declared.fault.Fault.TheVariants.{Conflict, TextFull};
ghost use Rattle.rt_rga.specs.Requests.{Make, Offer};
ghost use Rattle.rt_rga.specs.Examples.{delete_b, insert_ab, insert_q, insert_tagged_ab, insert_xx, insert_y, insert_z, tag_off_by_1, tag_off_by_2, tag_off_by_2_later, tag_on_by_1};
ghost use Rattle.rt_holding.specs.Holding.{new_holding, reply_to};
ghost use Rattle.rt_holding.specs.Replies as replies;
ghost use Rattle.rt_holding.specs.Runs.{holding_after_requests};
ghost use Rattle.rt_holding.specs.Examples.{after_offers, gives_tags, gives_text, insert_other, inserts, own_later, replies_from, text_in};

/// An insertion that comes before the text that it goes into is held, and taken after that. Of two under one
/// stamp the one held first is taken, and the other dropped.
pub fn early()
    ensures replies { replies_from new_holding (insert_y ∷ insert_y ∷ insert_ab ∷ insert_y ∷ [])
        ≡ replies.Held ∷ replies.Repeat ∷ replies.New ∷ replies.Repeat ∷ [] }
    ensures text { text_in (after_offers (insert_y ∷ insert_y ∷ insert_ab ∷ insert_y ∷ [])) ≡ codes "aYb\n" }
    ensures held { (after_offers (insert_y ∷ insert_y ∷ [])).held ≡ insert_y ∷ [] }
    ensures both_held { replies_from new_holding (insert_y ∷ insert_other ∷ insert_ab ∷ insert_other ∷ [])
        ≡ replies.Held ∷ replies.Held ∷ replies.New ∷ replies.Refused Conflict ∷ [] }
    ensures first_taken { text_in (after_offers (insert_y ∷ insert_other ∷ insert_ab ∷ [])) ≡ codes "aYb\n" }
    ensures other_dropped { (after_offers (insert_y ∷ insert_other ∷ insert_ab ∷ [])).held ≡ [] }
{}

/// In every order.
pub fn every_order()
    ensures insertions { gives_text (codes "aYXXb\n") (insert_ab ∷ insert_xx ∷ insert_y ∷ []) ≡ true }
    ensures beside_removed { gives_text (codes "aZ\n") (insert_ab ∷ delete_b ∷ insert_z ∷ []) ≡ true }
    ensures tag_off { gives_tags (false ∷ true ∷ false ∷ false ∷ [])
        (insert_tagged_ab ∷ tag_off_by_1 ∷ tag_on_by_1 ∷ insert_q ∷ tag_off_by_2_later ∷ []) ≡ true }
    ensures tag_on { gives_tags (true ∷ true ∷ false ∷ []) (insert_tagged_ab ∷ tag_off_by_1 ∷ tag_on_by_1 ∷ tag_off_by_2 ∷ []) ≡ true }
{}

/// A held one that finds no room stays held, and is refused for that when it is offered again. One of the site's own number is
/// taken in its place, and dropped when the site's own operations have gone past that.
pub fn corners()
    ensures full { (holding_after_requests 3 3 (Offer insert_y ∷ Offer insert_ab ∷ []) new_holding).held ≡ insert_y ∷ [] }
    ensures full_again { reply_to 3 insert_y (holding_after_requests 3 3 (Offer insert_y ∷ Offer insert_ab ∷ []) new_holding) ≡ replies.Refused TextFull }
    ensures own_taken { text_in (holding_after_requests 1 100 (Offer own_later ∷ Make (inserts (codes "abc")) ∷ []) new_holding) ≡ codes "xabc\n" }
    ensures own_dropped { (holding_after_requests 1 100 (Offer own_later ∷ Make (inserts (codes "abcd")) ∷ []) new_holding).held ≡ [] }
    ensures own_passed { text_in (holding_after_requests 1 100 (Offer own_later ∷ Make (inserts (codes "abcd")) ∷ []) new_holding) ≡ codes "abcd\n" }
{}
