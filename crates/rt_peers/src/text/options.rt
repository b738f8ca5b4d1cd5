// The options of a widget: those that all widgets of a site share, and the limits of what this one shows.
ghost use Rattle.std.specs.Prelude.{◌≡◌, Ok};
ghost use Rattle.std.specs.Fmt.{decimal};
ghost use Rattle.rt_stamps.specs.Outcomes.{Answers};
ghost use Rattle.rt_peers.specs.Options.{bounded, configured, option_step, option_value, settings_step};
ghost use Rattle.rt_peers.specs.ViewStep.{one_word, text_of_bool};
ghost use Rattle.rt_peers.specs.TakesNone.{IsRefusedAs};

use super::EditedText;
use crate::choices::choice_of;
use crate::replies::{no_words, number_reply, truth};
use crate::reply::Reply;
use rt_requests::{NamedOption, Settings, WidgetOption, WidgetSettings};
use rt_stamps::Fault;

impl EditedText {
    // Sets how many groups the undo stack may have, where that is given. It takes no memory.
    fn set_max_undo(&mut self, most: Option<u64>)
        ensures { self.new ≡ record self.old { history = bounded most self.old.history } }
    {
        if let Some(most) = most {
            self.recorder.set_max_undo(most);
        }
    }

    /// Sets shared options, those that are given a value. It takes no memory.
    pub(super) fn set_options(&mut self, settings: Settings)
        ensures { self.new ≡ configured self.old settings }
    {
        let undo = settings.undo.unwrap_or(self.recorder.is_undo_on());
        let auto = settings
            .auto_separators
            .unwrap_or(self.recorder.auto_separators());
        self.recorder.set_undo(undo);
        self.recorder.set_auto_separators(auto);
        self.set_max_undo(settings.max_undo);
    }

    // Options are set: the widget shows the lines that are asked for. It takes no memory.
    pub(super) fn set(&mut self, settings: &WidgetSettings) -> Result<Reply, Fault>
        ensures answers { Answers (settings_step self.old settings.now) self.old result self.new }
        ensures err { IsRefusedAs (settings_step self.old settings.now) result }
    {
        let start = choice_of(settings.start_line);
        let end = choice_of(settings.end_line);
        self.view.set_lines(start, end)?;
        self.set_options(settings.shared);
        Ok(no_words(self.alloc))
    }

    // What a shared option that is on or off is set to.
    fn option(&self, option: WidgetOption) -> bool
        ensures { result ≡ option_value self.now option }
    {
        match option {
            WidgetOption::Undo => self.recorder.is_undo_on(),
            WidgetOption::AutoSeparators => self.recorder.auto_separators(),
        }
    }

    // It, as a reply.
    fn tell_shared(&self, option: WidgetOption) -> Result<Reply, Fault>
        ensures { Answers (Ok (one_word (text_of_bool (option_value self.now option)), self.now)) self.now result self.now }
    {
        truth(self.alloc, self.option(option))
    }

    // How many groups the undo stack may have, as a reply.
    fn tell_max_undo(&self) -> Result<Reply, Fault>
        ensures { Answers (Ok (one_word (decimal self.now.history.most), self.now)) self.now result self.now }
    {
        number_reply(self.alloc, Some(self.recorder.max_undo() as usize))
    }

    // What an option is set to.
    pub(super) fn tell(&self, option: NamedOption) -> Result<Reply, Fault>
        ensures { Answers (option_step self.now option) self.now result self.now }
    {
        match option {
            NamedOption::Shared(option) => self.tell_shared(option),
            NamedOption::MaxUndo => self.tell_max_undo(),
            NamedOption::StartLine => number_reply(self.alloc, self.view.shown().start_number()),
            NamedOption::EndLine => number_reply(self.alloc, self.view.shown().end_number()),
        }
    }
}
