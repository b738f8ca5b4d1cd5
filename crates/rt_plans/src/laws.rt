// Laws of the definitions, each the contract of a function that does nothing.
ghost use Rattle.std.specs.Prelude.{◌≡◌, ℕ, ◌-◌, ◌<◌, ◌&&◌, not, All, Bool, false, true, map, List, [], ◌∷◌, ◌++◌, take, drop, length, if◌then◌else◌};
ghost use Rattle.std.specs.List.{IsDistinct, list_all};
ghost use Rattle.std.specs.Str.{bytes_eq};
ghost use Rattle.rt_stamps.specs.declared.stamp.Stamp.{Stamp};
ghost use Rattle.rt_stamps.specs.declared.stamp.TheConstants.{ROOT};
ghost use Rattle.rt_stamps.specs.Stamps.{is_same};
ghost use Rattle.rt_store.specs.Cells.{AreDistinct, text_of, stamps_of, with_state};
ghost use Rattle.rt_plans.specs.declared.range.Range.{Range};
ghost use Rattle.rt_stamps.specs.Words.{Word};
ghost use Rattle.rt_plans.specs.DocValue.{DocValue, left_stamp, put_after};
ghost use Rattle.rt_store.specs.Shown.{TaggedCell};
ghost use Rattle.rt_plans.specs.Insertions.{shared_names, tagged_cells};
ghost use Rattle.rt_plans.specs.Merging.{begins_line};
ghost use Rattle.rt_plans.specs.Removals.{cells_at, gone_at, is_removed, left_at, span_count};
ghost use Rattle.rt_plans.specs.DeletionLaws.{CellsHaveTagNames, CharactersAreScalars, InsertionsMayBegin, LeftIsElement, LeftStaysElement, PiecesAreTexts, LossInsertsNone, LossIsCounted, LossIsMade, LossMayBeMade, RangesSpareLast, ReplacementIsCounted, ReplacementIsMade, ReplacementMayBeMade, ReplacementsMayBegin, TagsLeftAreTags};
ghost use Rattle.rt_plans.specs.DraftLaws.{AllTagsAreCounted, DeletesAreCounted, DeletesMakeGone, DeletesMayBeMade, DeletionsAreCounted, DeletionsAreMade, DeletionsInsertNone, DeletionsMayBeMade, InsertionHasNewCells, InsertionIsCounted, InsertionIsMade, InsertionMayBeMade, NewlineHasOneTagEach, NewlineIsBared, RemovalIsMade, SharedNamesAreTags, TagsAreCounted, TagsAreMade, TagsBetweenAreTags, TagsInsertNone, TagsMayBeMade, TagsWriteAsFlat, TextIsCounted, TextIsMade, TextIsPutAsFlat, TextMayBeMade};
ghost use Rattle.rt_plans.specs.NamedSpans.{spans_in};
ghost use Rattle.rt_store.specs.Spans.{each_next, is_among, is_clear_of, is_in_spans, is_span};
ghost use Rattle.rt_plans.specs.TagWrites.{AreTagged, cells_beside, cells_but, with_tag, with_tag_at, last_writes};
ghost use Rattle.rt_store.specs.Written.{AreWritten};
ghost use Rattle.rt_tags.specs.States.{is_on, names_on};
ghost use Rattle.rt_tags.specs.Tags.{is_listed, sel};

/// Characters that are inserted stand before the one at the place: so it is where the root and all
/// cells, gone ones too, have stamps of their own.
pub fn text_of_insertion()
    ensures put { (cells new : List TaggedCell) (place : ℕ) → IsDistinct is_same (ROOT ∷ stamps_of cells)
        → place < length (text_of cells) → text_of (put_after cells (left_stamp cells place) new) ≡ take place (text_of cells)
        ++ text_of new ++ drop place (text_of cells) }
    ensures new { (site count : ℕ) (names : List Word) (text : List ℕ) → text_of (tagged_cells site count names text) ≡ text }
{}

/// A list gives each character of new text its names, and no other tag: they are those of the list but `sel`, which is
/// never the text's.
pub fn tags_of_insertion()
    ensures given { (site count : ℕ) (list : List Word) (text : List ℕ)
        → All (λ cell. names_on cell.state ≡ shared_names list) (tagged_cells site count (shared_names list) text) }
    ensures listed { (list : List Word) (name : Word) → is_listed name (shared_names list) ≡ (is_listed name list && not (bytes_eq name sel)) }
{}

/// A removal leaves the characters at the other places. One range before the last newline goes as
/// it is. One down to the text's end spares the last newline, and where it begins a line other
/// than the first, it takes the newline before it instead (Tk text manual).
pub fn text_of_removal()
    ensures left { (removed : ℕ → Bool) (cells : List TaggedCell) → text_of (gone_at removed 0 cells) ≡ left_at removed 0 (text_of cells) }
    ensures inner { (text : List ℕ) (range : Range) → range.from < range.to → range.to < length text
        → left_at (is_removed text (range ∷ [])) 0 text ≡ take range.from text ++ drop range.to text }
    ensures end { (text : List ℕ) (from : ℕ) → from < length text
        → left_at (is_removed text (record { from = from; to = length text } ∷ [])) 0 text
        ≡ take (if begins_line text from then from - 1 else from) text ++ drop (length text - 1) text }
{}

/// Where no write is newer than the document, a tag that is put on the characters of some stamps is on
/// afterwards, and one that is taken off is off. Other cells, other tags, and what else a cell has
/// stay as they were.
pub fn tags_of_stamps()
    ensures named { (doc : DocValue) (name : Word) (on : Bool) (stamps : List Stamp) → AreWritten doc.count doc.cells
        → AreTagged name on stamps (with_tag doc name on stamps).cells }
    ensures others { (doc : DocValue) (name : Word) (on : Bool) (stamps : List Stamp)
        → cells_but stamps (with_tag doc name on stamps).cells ≡ cells_but stamps doc.cells }
    ensures tags { (doc : DocValue) (name other : Word) (on : Bool) (stamps : List Stamp) → bytes_eq other name ≡ false
        → last_writes other (with_tag doc name on stamps).cells ≡ last_writes other doc.cells }
    ensures rest { (doc : DocValue) (name : Word) (on : Bool) (stamps : List Stamp)
        → map (with_state []) (with_tag doc name on stamps).cells ≡ map (with_state []) doc.cells }
{}

/// What `tags_of_stamps` says, of the characters at some places; and no write is newer than the document then.
pub fn tags_at_places()
    ensures named { (doc : DocValue) (places : ℕ → Bool) (on : Bool) (name : Word) → AreWritten doc.count doc.cells
        → All (λ cell. is_on name cell.state ≡ on) (cells_at places 0 (with_tag_at doc places on name).cells) }
    ensures others { (doc : DocValue) (places : ℕ → Bool) (on : Bool) (name : Word) → AreDistinct doc.cells
        → cells_beside places 0 (with_tag_at doc places on name).cells ≡ cells_beside places 0 doc.cells }
    ensures written { (doc : DocValue) (places : ℕ → Bool) (on : Bool) (name : Word) → AreWritten doc.count doc.cells
        → AreWritten (with_tag_at doc places on name).count (with_tag_at doc places on name).cells }
{}

/// The spans of stamps have these stamps and no others. Of stamps that differ they are as many as the
/// longest runs of consecutive counts, and stand as an operation has them: by site and first count,
/// and no two of them touch.
pub fn named_spans()
    ensures same { (stamps : List Stamp) (stamp : Stamp) → is_in_spans (spans_in stamps) stamp ≡ is_among stamps stamp }
    ensures count { (stamps : List Stamp) → IsDistinct is_same stamps → length (spans_in stamps) ≡ span_count stamps }
    ensures forward { (stamps : List Stamp) → list_all is_span (spans_in stamps) ≡ true }
    ensures clear { (stamps : List Stamp) → IsDistinct is_same stamps → each_next is_clear_of (spans_in stamps) ≡ true }
{}

/// The Deletes of a removal make the characters at the places gone, and no others. They take as many
/// counts as the removal does, keep the rules, and name what is known, where the last newline stays. So
/// the cells of the history with them are those that the removal leaves.
pub fn removal_drafts()
    ensures cells { DeletesMakeGone }
    ensures count { DeletesAreCounted }
    ensures may_be_made { DeletesMayBeMade }
    ensures made { RemovalIsMade }
{}

/// The operations of a deletion may be made, also where their counts don't fit, where the text's last
/// newline isn't among the removed characters: so it is where ranges are deleted in a stretch of the text.
/// They take as many counts as the deletion does, and insert no characters. So where the counts fit, a
/// document that has the cells of a history has, without what the deletion takes, those of the history
/// with the operations.
pub fn delete_drafts()
    ensures spared { RangesSpareLast }
    ensures may_be_made { LossMayBeMade }
    ensures count { LossIsCounted }
    ensures made { LossIsMade }
    ensures characters { LossInsertsNone }
{}

/// The operations of a replacement are those of a deletion, and then those of an insertion into what it
/// leaves. They may be made where the insertion may, and take as many counts. So where these fit, the
/// cells of the history with them are those of the one flat edit after the other.
pub fn replacement_drafts()
    ensures may_be_made { ReplacementMayBeMade }
    ensures count { ReplacementIsCounted }
    ensures made { ReplacementIsMade }
{}

/// What an insertion asks holds in the cells of a history, and in what a deletion leaves of them, also
/// where its counts don't fit: the visible left neighbour of a place below the text's end is an element,
/// and the tags on characters, and those that both neighbours have, are names that rise by their bytes.
/// The characters of a `str` are scalar values. So pieces whose names are as long as names may be, and
/// characters without a list, may be inserted before each place below the end.
pub fn insertion_premises()
    ensures element { LeftIsElement }
    ensures element_left { LeftStaysElement }
    ensures names { CellsHaveTagNames }
    ensures names_left { TagsLeftAreTags }
    ensures characters { CharactersAreScalars }
    ensures pieces { PiecesAreTexts }
    ensures insertion { InsertionsMayBegin }
    ensures replacement { ReplacementsMayBegin }
{}

/// The Tag operations of a tag edit write on just the characters that they name, under the counts of
/// the document's definition, and insert none. They keep the rules, and name what is known. So a
/// document that has the cells of a history has, after tags were put on characters, taken off or
/// deleted, those of the history with their operations. A newline that loses all its tags loses them by
/// one Tag for each, as tags that are taken off at its place.
pub fn tag_drafts()
    ensures cells { TagsWriteAsFlat }
    ensures count { TagsAreCounted }
    ensures may_be_made { TagsMayBeMade }
    ensures made { TagsAreMade }
    ensures deleted_may_be_made { DeletionsMayBeMade }
    ensures deleted { DeletionsAreMade }
    ensures newline { NewlineHasOneTagEach }
    ensures bared { NewlineIsBared }
    ensures all_counted { AllTagsAreCounted }
    ensures deleted_counted { DeletionsAreCounted }
    ensures characters { TagsInsertNone }
    ensures deleted_characters { DeletionsInsertNone }
{}

/// The Inserts of a text, with the Tags behind them, put the cells of the document's definition in
/// behind the element, with their tags, and take as many counts. They keep the rules, and name what is
/// known, where the names, the characters and the element are such.
pub fn text_drafts()
    ensures cells { TextIsPutAsFlat }
    ensures count { TextIsCounted }
    ensures may_be_made { TextMayBeMade }
    ensures made { TextIsMade }
{}

/// The operations of pieces with lists, and of characters without one behind them, put the new cells of
/// the document's definition in behind the element, take as many counts, and insert as many characters;
/// each keeps the rules, and names what is known. The tags of new text are as operations have them,
/// where those of the lists are names.
pub fn insertion_drafts()
    ensures may_be_made { InsertionMayBeMade }
    ensures made { InsertionIsMade }
    ensures count { InsertionIsCounted }
    ensures characters { InsertionHasNewCells }
    ensures shared { SharedNamesAreTags }
    ensures between { TagsBetweenAreTags }
{}
