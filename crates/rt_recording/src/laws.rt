// Laws of the definitions, each the contract of a function that does nothing.
ghost use Rattle.std.specs.Prelude.{◌≡◌, List};
ghost use Rattle.rt_rga.specs.Cells.{cells_of};
ghost use Rattle.rt_rga.specs.Histories.{IsHistory};
ghost use Rattle.rt_rga.specs.Orders.{AreIn};
ghost use Rattle.rt_ops.specs.Operations.{Operation};
ghost use Rattle.rt_lines.specs.Ordered.{StandAmong, letters_of};
ghost use Rattle.rt_recording.specs.EditLaws.{AllComeBack, DeletionIsTakenBack, InsertedTextsAreTakenBack, ReplacementIsTakenBack};

/// The text after ranges were deleted, which took no tags off the last newline, and this was undone at once by the action
/// that `delete` records: it is again what it was, each character with its tags.
pub fn recorded_deletion()
    ensures { DeletionIsTakenBack }
{}

/// The text after insertions, one or several, one after the other, were undone at once as one group, by the actions that
/// they record: it is again what it was, each character with its tags.
pub fn recorded_insertions()
    ensures { InsertedTextsAreTakenBack }
{}

/// The text after a replacement was undone at once, by the one action that a replacement records which takes no tags
/// off the last newline: it is again what it was, each character with its tags.
pub fn recorded_replacement()
    ensures { ReplacementIsTakenBack }
{}

/// Where each removed character of a group is gone, and one of its actions alone removed it, reverting the group brings
/// back all of them, if the counts fit, and no others. Between calls the groups of both stacks are such (`IsSettled`).
pub fn removed_characters()
    ensures { AllComeBack }
{}

/// While the log of a text grows, by operations of whichever sites, its characters stay in their order: new ones come in
/// between. With `laws::limits_in_order` of rt_lines, clause `grown`, limits stay in theirs.
pub fn characters_in_order()
    ensures { (old new : List Operation) → IsHistory old → IsHistory new → AreIn old new
        → StandAmong (letters_of (cells_of old)) (letters_of (cells_of new)) }
{}
