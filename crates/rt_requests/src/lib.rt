//! Requests: what is asked of a widget, with its parts by name and type, and the words that ask for it. So is what is
//! asked of its peers, of its options, and of a site by the line `destroy PATH`.
#![tactic(auto)]

mod configuring;
pub mod destroying;
mod digits;
mod editing;
pub mod kinds;
pub mod laws;
pub mod limits;
mod marking;
mod max_undo;
pub mod measures;
pub mod options;
pub mod path;
pub mod peers;
mod reading;
pub mod request;
mod search_switches;
mod searching;
pub mod settings;
mod switches;
mod tagging;
pub mod texts;
mod undoing;
pub mod word;

pub use destroying::Destroy;
pub use kinds::Kinds;
pub use limits::Limit;
pub use measures::Measures;
pub use options::{NamedOption, Settings, WidgetOption};
pub use path::Path;
pub use peers::PeerRequest;
pub use request::{EditRequest, MarkRequest, Request, SearchRequest, TagRequest, Wanted};
pub use rt_index::{Comparison, Measure};
pub use rt_marks::Gravity;
pub use rt_search::{Case, Direction, Overlaps, Search, Strictness};
pub use settings::WidgetSettings;
pub use texts::{TaggedText, Texts};
pub use word::{Word, Words};
