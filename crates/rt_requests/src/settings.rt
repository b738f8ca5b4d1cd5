// What the options of a widget are set to.
ghost use Rattle.std.specs.Prelude.{◌≡◌, None, Some, if◌then◌else◌};
ghost use Rattle.rt_stamps.specs.Words.{as_words};
ghost use Rattle.rt_requests.specs.OptionWords.{are_pairs};
ghost use Rattle.rt_requests.specs.SettingWords.{asked_of_pairs, asked_settings, can_all_be_set, settings_in, with_value};

use crate::limits::Limit;
use crate::max_undo::max_undo_of;
use crate::options::{NamedOption, Settings, WidgetOption, truth_of};
use rt_stamps::Fault;

/// What options are set to, each that is given a value (Tk text manual, "configure").
#[derive(Clone, Copy, Debug, PartialEq, Eq)]
pub struct WidgetSettings {
    /// The options that all widgets of a site share.
    pub shared: Settings,
    /// `-startline`.
    pub start_line: Option<Limit>,
    /// `-endline`.
    pub end_line: Option<Limit>,
}

impl WidgetSettings {
    /// What the words behind `configure` ask for: options with their values, one pair at least. Refused by `BadCommand`
    /// and then by `BadOption`. It takes no memory.
    pub(crate) fn of(words: &[String]) -> Result<WidgetSettings, Fault>
        ensures { result ≡ asked_settings (as_words words.now) }
    {
        if words.is_empty() {
            return Err(Fault::BadCommand);
        }
        of_pairs(words)
    }

    // With a value of an option. None where the option can't have it.
    fn with(self, option: NamedOption, value: &str) -> Option<WidgetSettings>
        ensures { result ≡ with_value self option value.now }
    {
        let mut settings = self;
        match option {
            NamedOption::Shared(WidgetOption::Undo) => {
                settings.shared.undo = Some(truth_of(value)?);
            }
            NamedOption::Shared(WidgetOption::AutoSeparators) => {
                settings.shared.auto_separators = Some(truth_of(value)?);
            }
            NamedOption::MaxUndo => settings.shared.max_undo = Some(max_undo_of(value)?),
            NamedOption::StartLine => settings.start_line = Some(Limit::of(value)?),
            NamedOption::EndLine => settings.end_line = Some(Limit::of(value)?),
        }
        Some(settings)
    }
}

// What any number of options with their values ask for.
pub(crate) fn of_pairs(words: &[String]) -> Result<WidgetSettings, Fault>
    ensures { result ≡ asked_of_pairs (as_words words.now) }
{
    if !are_pairs(words) {
        return Err(Fault::BadCommand);
    }
    match read_pairs(words) {
        Some(settings) => Ok(settings),
        None => Err(Fault::BadOption),
    }
}

// Whether words are options with their values, in pairs.
fn are_pairs(words: &[String]) -> bool
    ensures { result ≡ are_pairs (as_words words.now) }
{
    words.len() % 2 == 0
}

// What pairs of words set. None where an option isn't there or can't have its value.
fn read_pairs(words: &[String]) -> Option<WidgetSettings>
    ensures { let pairs = as_words words.now in result ≡ (if can_all_be_set pairs then Some (settings_in pairs) else None) }
{
    let shared = Settings {
        undo: None,
        auto_separators: None,
        max_undo: None,
    };
    let mut settings = WidgetSettings {
        shared,
        start_line: None,
        end_line: None,
    };
    let mut left = words;
    while let [word, value, after @ ..] = left {
        let option = NamedOption::of(word)?;
        settings = settings.with(option, value)?;
        left = after;
    }
    Some(settings)
}
