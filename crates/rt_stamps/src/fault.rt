// Why a call was refused.
ghost use Rattle.std.specs.Prelude.{◌≡◌};
ghost use Rattle.rt_stamps.specs.declared.fault.Fault.TheVariants.{NoMemory};

use std::alloc::{AllocError, AllocFailed};
use std::fmt;
use thiserror::Error;

/// Why a call was refused. Each has a number, a name and the text `NUMBER NAME`.
#[derive(Clone, Copy, Debug, PartialEq, Eq, Error)]
pub enum Fault {
    /// A growth was refused.
    NoMemory,
    /// An index is no index expression, or names nothing.
    BadIndex,
    /// The tag of an index is on no character.
    NoneTagged,
    /// There is no such command, or not with so many words.
    BadCommand,
    /// The first word of a line is no widget's path.
    NoWidget,
    /// A widget has this path already.
    WidgetExists,
    /// The tag is not listed.
    NoTag,
    /// There is no such mark.
    NoMark,
    /// An option, a switch or its value is not one of the command's.
    BadOption,
    /// The second index of `replace` is before the first.
    BackwardsRange,
    /// The pattern of `search` is empty.
    EmptyPattern,
    /// The undo stack is empty.
    NothingToUndo,
    /// The redo stack is empty.
    NothingToRedo,
    /// The name of a tag, a mark or a widget is empty, too long, or not one that can be given.
    BadName,
    /// The first and the last line of a view do not fit the text.
    BadView,
    /// A site keeps at least one widget.
    LastWidget,
    /// The counts needed pass the greatest count.
    ClockSpent,
    /// The cells would pass the site's limit.
    TextFull,
    /// A line or a list is badly quoted, so that it spells no list of words, is not UTF-8, or is too long.
    BadQuoting,
    /// No file of this name was handed in.
    NoFile,
    /// A file of operations does not begin as one.
    BadMagic,
    /// A file of operations is of another version.
    BadVersion,
    /// A file of operations ends within a record.
    Truncated,
    /// A record of a file breaks a rule of the format.
    BadRecord,
    /// A stamp of an operation is out of its range.
    BadStamp,
    /// An operation clashes with another of its site.
    Conflict,
    /// An operation was made upon one that is not known.
    NotYet,
    /// An operation names what is no character.
    BadTarget,
    /// Too many operations wait for others.
    WaitingFull,
    /// A read failed in this call, or a bound on bytes or reads was passed.
    ReadFault,
    /// A write failed in this call, or took nothing.
    WriteFault,
}

impl Fault {
    ghost use Rattle.rt_stamps.specs.Fault.{number_of, name_of, fault_text};

    /// The fault's number, from 1 to 41.
    pub fn number(self) -> u8
        ensures { result ≡ number_of self }
    {
        match self {
            Fault::NoMemory => 1,
            Fault::BadIndex => 2,
            Fault::NoneTagged => 3,
            Fault::BadCommand => 4,
            Fault::NoWidget => 5,
            Fault::WidgetExists => 6,
            Fault::NoTag => 7,
            Fault::NoMark => 8,
            Fault::BadOption => 9,
            Fault::BackwardsRange => 10,
            Fault::EmptyPattern => 11,
            Fault::NothingToUndo => 12,
            Fault::NothingToRedo => 13,
            Fault::BadName => 14,
            Fault::BadView => 15,
            Fault::LastWidget => 16,
            Fault::ClockSpent => 17,
            Fault::TextFull => 18,
            Fault::BadQuoting => 19,
            Fault::NoFile => 20,
            Fault::BadMagic => 30,
            Fault::BadVersion => 31,
            Fault::Truncated => 32,
            Fault::BadRecord => 33,
            Fault::BadStamp => 34,
            Fault::Conflict => 35,
            Fault::NotYet => 36,
            Fault::BadTarget => 37,
            Fault::WaitingFull => 38,
            Fault::ReadFault => 40,
            Fault::WriteFault => 41,
        }
    }

    /// The fault's name, as `BadIndex`.
    pub fn name(self) -> &'static str
        ensures { result.now ≡ name_of self }
    {
        match self {
            Fault::NoMemory => "NoMemory",
            Fault::BadIndex => "BadIndex",
            Fault::NoneTagged => "NoneTagged",
            Fault::BadCommand => "BadCommand",
            Fault::NoWidget => "NoWidget",
            Fault::WidgetExists => "WidgetExists",
            Fault::NoTag => "NoTag",
            Fault::NoMark => "NoMark",
            Fault::BadOption => "BadOption",
            Fault::BackwardsRange => "BackwardsRange",
            Fault::EmptyPattern => "EmptyPattern",
            Fault::NothingToUndo => "NothingToUndo",
            Fault::NothingToRedo => "NothingToRedo",
            Fault::BadName => "BadName",
            Fault::BadView => "BadView",
            Fault::LastWidget => "LastWidget",
            Fault::ClockSpent => "ClockSpent",
            Fault::TextFull => "TextFull",
            Fault::BadQuoting => "BadQuoting",
            Fault::NoFile => "NoFile",
            Fault::BadMagic => "BadMagic",
            Fault::BadVersion => "BadVersion",
            Fault::Truncated => "Truncated",
            Fault::BadRecord => "BadRecord",
            Fault::BadStamp => "BadStamp",
            Fault::Conflict => "Conflict",
            Fault::NotYet => "NotYet",
            Fault::BadTarget => "BadTarget",
            Fault::WaitingFull => "WaitingFull",
            Fault::ReadFault => "ReadFault",
            Fault::WriteFault => "WriteFault",
        }
    }

    /// The number, a space and the name, as `2 BadIndex`.
    pub fn text(self) -> &'static str
        ensures { result.now ≡ fault_text self }
    {
        match self {
            Fault::NoMemory => "1 NoMemory",
            Fault::BadIndex => "2 BadIndex",
            Fault::NoneTagged => "3 NoneTagged",
            Fault::BadCommand => "4 BadCommand",
            Fault::NoWidget => "5 NoWidget",
            Fault::WidgetExists => "6 WidgetExists",
            Fault::NoTag => "7 NoTag",
            Fault::NoMark => "8 NoMark",
            Fault::BadOption => "9 BadOption",
            Fault::BackwardsRange => "10 BackwardsRange",
            Fault::EmptyPattern => "11 EmptyPattern",
            Fault::NothingToUndo => "12 NothingToUndo",
            Fault::NothingToRedo => "13 NothingToRedo",
            Fault::BadName => "14 BadName",
            Fault::BadView => "15 BadView",
            Fault::LastWidget => "16 LastWidget",
            Fault::ClockSpent => "17 ClockSpent",
            Fault::TextFull => "18 TextFull",
            Fault::BadQuoting => "19 BadQuoting",
            Fault::NoFile => "20 NoFile",
            Fault::BadMagic => "30 BadMagic",
            Fault::BadVersion => "31 BadVersion",
            Fault::Truncated => "32 Truncated",
            Fault::BadRecord => "33 BadRecord",
            Fault::BadStamp => "34 BadStamp",
            Fault::Conflict => "35 Conflict",
            Fault::NotYet => "36 NotYet",
            Fault::BadTarget => "37 BadTarget",
            Fault::WaitingFull => "38 WaitingFull",
            Fault::ReadFault => "40 ReadFault",
            Fault::WriteFault => "41 WriteFault",
        }
    }
}

impl fmt::Display for Fault {
    ghost use Rattle.std.specs.Prelude.{Some};
    ghost use Rattle.rt_stamps.specs.Fault.{fault_text};

    ghost output = { λ fault. Some (fault_text fault) };

    fn fmt<W: fmt::Write>(&self, f: &mut fmt::Formatter<W>) -> fmt::Result {
        f.write_str(self.text())
    }
}

impl From<AllocError> for Fault {
    ghost from_gives = { λ _ fault. fault ≡ NoMemory };

    fn from(_: AllocError) -> Self {
        Fault::NoMemory
    }
}

impl<T: Drop> From<AllocFailed<T>> for Fault {
    ghost from_gives = { λ _ fault. fault ≡ NoMemory };

    fn from(_: AllocFailed<T>) -> Self {
        Fault::NoMemory
    }
}
