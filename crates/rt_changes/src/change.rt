// What an editor is told of an operation that a text took.
ghost use Rattle.std.specs.Prelude.{◌≡◌, IfOk, IsOkUnless};
ghost use Rattle.rt_stamps.specs.declared.fault.Fault.TheVariants.{NoMemory};
ghost use Rattle.rt_changes.specs.Telling.{IsToTell, changes_in, placed};

use rt_ops::{Edit, Op, Text};
use rt_rga::{Change, PlaceRun};
use rt_stamps::Fault;
use std::alloc::Global;

/// What an operation changed in the visible text, in the text that the changes before it left. Places count visible
/// characters from 0 in the whole text. A run is its characters from `from` up to `to`, without that at `to`; it isn't empty.
#[derive(Drop)]
pub enum ToldChange {
    /// Characters came in before the one at a place, under these tags.
    Inserted {
        at: usize,
        text: Text,
        tags: Vec<String>,
    },
    /// The characters of each run are gone. The last run in the text comes first, so what is done for one leaves the
    /// places of the next ones.
    Deleted {
        runs: Vec<PlaceRun>,
    },
    /// A tag was put on the characters of each run, or taken off them. The last run in the text comes first.
    Tagged {
        on: bool,
        name: String,
        runs: Vec<PlaceRun>,
    },
}

/// What is to be told of an operation but for the places, which are known once it is taken. It is made before that, as
/// it may want memory.
#[derive(Drop)]
pub enum ToTell {
    Insertion { text: Text },
    Deletion,
    Tagging { on: bool, name: String },
}

impl ToTell {
    /// Of an operation. `NoMemory` is its only fault.
    pub fn of(alloc: Global, op: &Op) -> Result<ToTell, Fault>
        ensures ok { IfOk result (IsToTell op.now.body) }
        ensures fault { IsOkUnless result NoMemory }
    {
        match op.edit() {
            Edit::Insert {
                after: _,
                tags: _,
                text,
            } => Ok(ToTell::Insertion {
                text: Text::copy_of(alloc, text.characters())?,
            }),
            Edit::Delete { spans: _ } => Ok(ToTell::Deletion),
            Edit::Tag { on, name, spans: _ } => Ok(ToTell::Tagging {
                on: *on,
                name: String::from_str(alloc, name)?,
            }),
        }
    }

    /// With the places that taking it told. It takes no memory.
    pub fn at(self, change: Change) -> ToldChange
        ensures { changes_in result ≡ placed self change }
    {
        match self {
            ToTell::Insertion { text } => ToldChange::Inserted {
                at: change.place,
                text,
                tags: change.lists,
            },
            ToTell::Deletion => ToldChange::Deleted {
                runs: change.removed,
            },
            ToTell::Tagging { on, name } => ToldChange::Tagged {
                on,
                name,
                runs: change.retagged,
            },
        }
    }
}
