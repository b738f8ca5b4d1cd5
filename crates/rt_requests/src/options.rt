// The options of a widget.
ghost use Rattle.std.specs.Prelude.{◌≡◌, option_map};
ghost use Rattle.rt_stamps.specs.Words.{as_words};
ghost use Rattle.rt_requests.specs.declared.options.NamedOption.TheVariants.{Shared};
ghost use Rattle.rt_requests.specs.OptionWords.{option_of, option_word};
ghost use Rattle.rt_requests.specs.SettingWords.{asked_named_option, named_option};
ghost use Rattle.rt_requests.specs.Truth.{truth_of};

use rt_stamps::Fault;

/// An option that all widgets of a site share and that is on or off (Tk text manual, "WIDGET-SPECIFIC OPTIONS").
#[derive(Clone, Copy, Debug, PartialEq, Eq)]
pub enum WidgetOption {
    /// `-undo`: whether the undo mechanism is active.
    Undo,
    /// `-autoseparators`: whether a separator is put on the undo stack before each replacement, and wherever an action
    /// is of another kind than the one before it.
    AutoSeparators,
}

impl WidgetOption {
    /// The option that a word names. It takes no memory.
    pub fn of(word: &str) -> Option<WidgetOption>
        ensures { result ≡ option_of word.now }
    {
        match word {
            "-undo" => Some(WidgetOption::Undo),
            "-autoseparators" => Some(WidgetOption::AutoSeparators),
            _ => None,
        }
    }

    /// The word that names it.
    pub fn word(self) -> &'static str
        ensures { result.now ≡ option_word self }
    {
        match self {
            WidgetOption::Undo => "-undo",
            WidgetOption::AutoSeparators => "-autoseparators",
        }
    }
}

/// What shared options are set to, each that is given a value (Tk text manual, "configure").
#[derive(Clone, Copy, Debug, PartialEq, Eq)]
pub struct Settings {
    /// `-undo`.
    pub undo: Option<bool>,
    /// `-autoseparators`.
    pub auto_separators: Option<bool>,
    /// `-maxundo`: the most groups that the undo stack may have, 0 for no limit. It is at most 2^63 - 1.
    pub max_undo: Option<u64>,
}

/// An option of a widget (Tk text manual, "WIDGET-SPECIFIC OPTIONS"): one that all widgets of a site share, or a limit
/// of what this one shows.
#[derive(Clone, Copy, Debug, PartialEq, Eq)]
pub enum NamedOption {
    /// `-undo` or `-autoseparators`.
    Shared(WidgetOption),
    /// `-maxundo`: the most groups that the undo stack may have. All widgets of a site share it too.
    MaxUndo,
    /// `-startline`: the first line that the widget shows.
    StartLine,
    /// `-endline`: the line just after the last one that it shows.
    EndLine,
}

impl NamedOption {
    /// The option that a word names. It takes no memory.
    pub fn of(word: &str) -> Option<NamedOption>
        ensures { result ≡ named_option word.now }
    {
        match word {
            "-startline" => Some(NamedOption::StartLine),
            "-endline" => Some(NamedOption::EndLine),
            "-maxundo" => Some(NamedOption::MaxUndo),
            _ => shared(word),
        }
    }

    /// What the words behind `cget` ask for: one word, which names an option. Refused by `BadCommand` and then by
    /// `BadOption`. It takes no memory.
    pub(crate) fn asked(words: &[String]) -> Result<NamedOption, Fault>
        ensures { result ≡ asked_named_option (as_words words.now) }
    {
        let [word] = words else {
            return Err(Fault::BadCommand);
        };
        match NamedOption::of(word) {
            Some(option) => Ok(option),
            None => Err(Fault::BadOption),
        }
    }
}

// The shared option that a word names.
fn shared(word: &str) -> Option<NamedOption>
    ensures { result ≡ option_map Shared (option_of word.now) }
{
    let option = WidgetOption::of(word)?;
    Some(NamedOption::Shared(option))
}

/// The truth that a word tells: one of the words for yes, or for no. It takes no memory.
pub(crate) fn truth_of(word: &str) -> Option<bool>
    ensures { result ≡ truth_of word.now }
{
    match word {
        "1" | "true" | "yes" | "on" => Some(true),
        "0" | "false" | "no" | "off" => Some(false),
        _ => None,
    }
}
