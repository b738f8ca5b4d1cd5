// Worked examples of the definitions, each a clause that computes.
ghost use Rattle.std.specs.Prelude.{◌≡◌, ◌==◌, false, true, [], ◌∷◌, codes, Some, None};
ghost use Rattle.rt_stamps.specs.declared.fault.Fault.TheVariants.{ClockSpent, TextFull};
ghost use Rattle.rt_stamps.specs.declared.stamp.TheConstants.{FINAL, ROOT};
ghost use Rattle.rt_stamps.specs.declared.limits.TheConstants.{MOST_CHARACTERS, MOST_SPANS};
ghost use Rattle.rt_ops.specs.Operations.{Delete, Insert, Tag};
ghost use Rattle.rt_store.specs.Cells.{text_of};
ghost use Rattle.rt_ops.specs.Examples.{span};
ghost use Rattle.rt_rga.specs.Examples.{at, insert_ab, only_t};
ghost use Rattle.rt_rga.specs.Made.{refusal_of};
ghost use Rattle.rt_plans.specs.Deletions.{delete_drafts, loss_in, without_text};
ghost use Rattle.rt_plans.specs.Examples.{all_tags, cells_of_yab, cells_with_t, doc_of_lines, doc_with_newline, doc_with_t, listed_tags, log_at_end, nothing_yet, piece_with_sel, tags_of_each, three_pieces, two_pieces, with_u};
ghost use Rattle.rt_plans.specs.InsertionDrafts.{insertion_drafts, text_drafts};
ghost use Rattle.rt_plans.specs.RemovalDrafts.{removal_drafts};
ghost use Rattle.rt_plans.specs.TagDrafts.{tag_deletion_drafts, newline_drafts, tag_drafts_at, tags_drafts_at};
ghost use Rattle.rt_tags.specs.Tags.{sel};

/// `Yab` is removed by one Delete: the spans stand by site, not in the text's order, and the
/// consecutive counts of `ab` are one span. Where a Delete may have one span alone there are two. What
/// removes nothing makes none.
pub fn removals()
    ensures all { removal_drafts MOST_SPANS (λ _. true) cells_of_yab ≡ Delete (span 1 1 2 ∷ span 2 3 3 ∷ []) ∷ [] }
    ensures parts { removal_drafts 1 (λ _. true) cells_of_yab ≡ Delete (span 1 1 2 ∷ []) ∷ Delete (span 2 3 3 ∷ []) ∷ [] }
    ensures first { removal_drafts MOST_SPANS (λ place. place == 0) cells_of_yab ≡ Delete (span 2 3 3 ∷ []) ∷ [] }
    ensures nothing { removal_drafts MOST_SPANS (λ _. false) cells_of_yab ≡ [] }
{}

/// Of `Yab` with the tag t on `a`: t is put on the two others by one Tag, or by two where one may have
/// one span alone, and is taken off `a`; where no character has a tag there is nothing to take off.
/// Two tags make operations one after the other. A tag that comes twice makes operations once, and `sel`
/// makes none. A deleted tag is taken off the last newline too, whose span is the first. The last
/// newline loses its tags by one Tag each.
pub fn tags()
    ensures on { tag_drafts_at MOST_SPANS (λ _. true) true (codes "t") cells_with_t ≡ Tag true (codes "t") (span 1 2 2 ∷ span 2 3 3 ∷ []) ∷ [] }
    ensures parts { tag_drafts_at 1 (λ _. true) true (codes "t") cells_with_t
        ≡ Tag true (codes "t") (span 1 2 2 ∷ []) ∷ Tag true (codes "t") (span 2 3 3 ∷ []) ∷ [] }
    ensures off { tag_drafts_at MOST_SPANS (λ _. true) false (codes "t") cells_with_t ≡ Tag false (codes "t") (span 1 1 1 ∷ []) ∷ [] }
    ensures nothing { tag_drafts_at MOST_SPANS (λ _. true) false (codes "u") cells_with_t ≡ [] }
    ensures both { tags_drafts_at MOST_SPANS doc_with_t (λ _. true) true (codes "t" ∷ codes "u" ∷ [])
        ≡ Tag true (codes "t") (span 1 2 2 ∷ span 2 3 3 ∷ []) ∷ Tag true (codes "u") (span 1 1 2 ∷ span 2 3 3 ∷ []) ∷ [] }
    ensures twice { tags_drafts_at MOST_SPANS doc_with_t (λ _. true) true (codes "u" ∷ codes "u" ∷ [])
        ≡ Tag true (codes "u") (span 1 1 2 ∷ span 2 3 3 ∷ []) ∷ [] }
    ensures deleted { tag_deletion_drafts MOST_SPANS doc_with_t (sel ∷ codes "t" ∷ codes "t" ∷ []) ≡ Tag false (codes "t") (span 1 1 1 ∷ []) ∷ [] }
    ensures deleted_at_end { tag_deletion_drafts MOST_SPANS doc_with_newline (codes "t" ∷ [])
        ≡ Tag false (codes "t") (span 0 1 1 ∷ span 1 1 1 ∷ []) ∷ [] }
    ensures newline { newline_drafts FINAL (codes "t" ∷ codes "u" ∷ [])
        ≡ Tag false (codes "t") (span 0 1 1 ∷ []) ∷ Tag false (codes "u") (span 0 1 1 ∷ []) ∷ [] }
{}

/// `abc` behind `(5,2)` is one Insert, or two where an Insert may have two characters: the second goes
/// after the `b`, whose count is the one before its own. A tag that the Insert can't list is put on its
/// characters behind it, before the next Insert. No text makes no operation.
pub fn insertions()
    ensures text { text_drafts MOST_CHARACTERS 1 6 (at 5 2) only_t (codes "abc") ≡ Insert (at 5 2) only_t (codes "abc") ∷ [] }
    ensures parts { text_drafts 2 1 6 (at 5 2) only_t (codes "abc") ≡ Insert (at 5 2) only_t (codes "ab") ∷ Insert (at 8 1) only_t (codes "c") ∷ [] }
    ensures further { text_drafts 2 1 0 ROOT all_tags (codes "abc")
        ≡ Insert ROOT listed_tags (codes "ab") ∷ Tag true (codes "u") (span 1 1 2 ∷ []) ∷ Insert (at 2 1) listed_tags (codes "c")
        ∷ Tag true (codes "u") (span 1 4 4 ∷ []) ∷ [] }
    ensures nothing { text_drafts MOST_CHARACTERS 1 6 (at 5 2) only_t [] ≡ [] }
{}

/// Two pieces with lists and then characters without one: each goes behind the text of the one before it.
/// Those without a list get the tags that both neighbours have, of which the left one is the last of the
/// pieces, or without pieces the place's. A piece without text makes no operation. `sel` is no shared tag,
/// and a name that comes twice is listed once.
pub fn pieces()
    ensures lists { insertion_drafts MOST_CHARACTERS 1 (at 1 2) with_u with_u two_pieces (codes "d") (nothing_yet 6)
        ≡ Insert (at 1 2) only_t (codes "ab") ∷ Insert (at 8 1) [] (codes "c") ∷ Insert (at 9 1) [] (codes "d") ∷ [] }
    ensures between { insertion_drafts MOST_CHARACTERS 1 (at 1 2) with_u with_u [] (codes "d") (nothing_yet 6)
        ≡ Insert (at 1 2) (codes "u" ∷ []) (codes "d") ∷ [] }
    ensures empty { insertion_drafts MOST_CHARACTERS 1 (at 1 2) with_u with_u three_pieces [] (nothing_yet 6)
        ≡ Insert (at 1 2) only_t (codes "ab") ∷ Insert (at 8 1) [] (codes "c") ∷ [] }
    ensures sel { insertion_drafts MOST_CHARACTERS 1 (at 1 2) with_u with_u piece_with_sel [] (nothing_yet 6) ≡ Insert (at 1 2) only_t (codes "ab") ∷ [] }
{}

/// Of `Yab` with the tag t on `a` and on the last newline: a range within it is one Delete. Where a range
/// holds the last newline, this stays, and loses its tag after the Delete of the others.
pub fn deletions()
    ensures inner { delete_drafts MOST_SPANS doc_with_newline (loss_in (codes "Yab\n") 0 (record { from = 1; to = 2 } ∷ []))
        ≡ Delete (span 1 1 1 ∷ []) ∷ [] }
    ensures whole { delete_drafts MOST_SPANS doc_with_newline (loss_in (codes "Yab\n") 0 (record { from = 0; to = 4 } ∷ []))
        ≡ Delete (span 1 1 2 ∷ span 2 3 3 ∷ []) ∷ Tag false (codes "t") (span 0 1 1 ∷ []) ∷ [] }
    ensures newline { delete_drafts MOST_SPANS doc_with_newline (loss_in (codes "Yab\n") 0 (record { from = 3; to = 4 } ∷ []))
        ≡ Tag false (codes "t") (span 0 1 1 ∷ []) ∷ [] }
    ensures nothing { delete_drafts MOST_SPANS doc_with_newline (loss_in (codes "Yab\n") 0 []) ≡ [] }
{}

/// Of the lines `a`, `b`, `c` and `d`, each character of which has the tag t, a stretch of two, `b` and
/// `c`: a range that holds all of it takes `b`, the newline behind it and `c`. The one behind `c` stays,
/// and loses its tag, as the last one of the stretch. A range of the second line takes the newline
/// behind `b` and `c`: no empty line is left. The text around the stretch stays, with its tags; the last
/// newline had none.
pub fn stretches()
    ensures all { delete_drafts MOST_SPANS doc_of_lines (loss_in (codes "b\nc\n") 2 (record { from = 0; to = 4 } ∷ []))
        ≡ Delete (span 1 3 5 ∷ []) ∷ Tag false (codes "t") (span 1 6 6 ∷ []) ∷ [] }
    ensures second { delete_drafts MOST_SPANS doc_of_lines (loss_in (codes "b\nc\n") 2 (record { from = 2; to = 4 } ∷ []))
        ≡ Delete (span 1 4 5 ∷ []) ∷ Tag false (codes "t") (span 1 6 6 ∷ []) ∷ [] }
    ensures inner { delete_drafts MOST_SPANS doc_of_lines (loss_in (codes "b\nc\n") 2 (record { from = 0; to = 1 } ∷ []))
        ≡ Delete (span 1 3 3 ∷ []) ∷ [] }
    ensures left { text_of (without_text doc_of_lines (loss_in (codes "b\nc\n") 2 (record { from = 0; to = 4 } ∷ []))).cells ≡ codes "a\n\nd\n" }
    ensures bare { tags_of_each (without_text doc_of_lines (loss_in (codes "b\nc\n") 2 (record { from = 0; to = 4 } ∷ []))).cells
        ≡ only_t ∷ only_t ∷ [] ∷ only_t ∷ [] ∷ [] }
{}

/// Where neither the counts of drafts fit nor their cells, the counts are told. The limit is of all cells,
/// the last newline's too.
pub fn refusals()
    ensures counts { refusal_of 0 (Insert ROOT [] (codes "a") ∷ []) log_at_end ≡ Some ClockSpent }
    ensures counts_alone { refusal_of 9 (Insert ROOT [] (codes "a") ∷ []) log_at_end ≡ Some ClockSpent }
    ensures cells { refusal_of 3 (Insert ROOT [] (codes "c") ∷ []) (insert_ab ∷ []) ≡ Some TextFull }
    ensures none { refusal_of 4 (Insert ROOT [] (codes "c") ∷ []) (insert_ab ∷ []) ≡ None }
{}
