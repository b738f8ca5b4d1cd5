// Laws of the definitions, each the contract of a function that does nothing.
ghost use Rattle.rt_revert.specs.ReversionLaws.{ReversionHasNewCells, ReversionIsMade, ReversionIsSound, ReversionMayBeMade};
ghost use Rattle.rt_revert.specs.TextLaws.{InsertionIsRedone, InsertionIsTakenBack, RemovalIsTakenBack};

/// The operations of a reverted group may be made where its counts fit, and insert a character for each
/// new cell. So a document that has the cells of a history has, after a group was reverted, those of
/// the history with the operations: each is a Delete of characters that are still visible, or brings a
/// character back directly after the one that went, with its tags. What is asked of a group holds of the
/// one for the other stack, so it can be redone.
pub fn reversion_drafts()
    ensures may_be_made { ReversionMayBeMade }
    ensures made { ReversionIsMade }
    ensures characters { ReversionHasNewCells }
    ensures sound { ReversionIsSound }
{}

/// The text after an action was reverted: without the characters of an insertion that are still
/// visible, and no others; after a removal it is again what it was before, with all tags. So it is where
/// an insertion that was undone is redone.
pub fn reverted_text()
    ensures insertion { InsertionIsTakenBack }
    ensures removal { RemovalIsTakenBack }
    ensures redone { InsertionIsRedone }
{}
