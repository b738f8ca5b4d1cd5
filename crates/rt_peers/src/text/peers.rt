// The widgets that show the text.
ghost use Rattle.std.specs.Prelude.{◌≡◌, ◌<◌, Ok, IfErr, OnErr, OnOk, length};
ghost use Rattle.rt_stamps.specs.Outcomes.{Refuses};
ghost use Rattle.rt_text.specs.Widgets.{widgets_of};
ghost use Rattle.rt_peers.specs.Peers.{text_led, view_without};
ghost use Rattle.rt_peers.specs.PeerStep.{text_with_peer};

use super::EditedText;
use crate::choices::choice_of;
use crate::widgets;
use rt_requests::WidgetSettings;
use rt_stamps::Fault;

impl EditedText {
    /// Lets the widget of a number command: it and the first one change places. It takes no memory.
    pub(crate) fn lead(&mut self, number: usize)
        requires { number < length (widgets_of self.old.view) }
        ensures { self.new ≡ text_led number self.old }
    {
        widgets::lead(&mut self.view, number);
    }

    // Adds a new widget behind the others, which the first one makes, with options. `BadView`, or want of memory, and then
    // nothing changes.
    fn add_peer_of_first(&mut self, settings: &WidgetSettings) -> Result<(), Fault>
        ensures ok { OnOk result (text_with_peer self.old settings.now ≡ Ok self.new) }
        ensures err { IfErr result (Refuses (text_with_peer self.old settings.now)) }
        ensures unchanged { OnErr result (self.new ≡ self.old) }
    {
        let start = choice_of(settings.start_line);
        let end = choice_of(settings.end_line);
        self.view.add_peer(start, end)?;
        self.set_options(settings.shared);
        Ok(())
    }

    /// Adds a new widget behind the others, which the one of a number makes, with options. `BadView`, or want of memory, and
    /// then nothing changes.
    pub(crate) fn add_peer(&mut self, number: usize, settings: &WidgetSettings) -> Result<(), Fault>
        requires { number < length (widgets_of self.old.view) }
        ensures ok { OnOk result (text_with_peer (text_led number self.old) settings.now ≡ Ok (text_led number self.new)) }
        ensures err { IfErr result (Refuses (text_with_peer (text_led number self.old) settings.now)) }
        ensures unchanged { OnErr result (self.new ≡ self.old) }
    {
        self.lead(number);
        let added = self.add_peer_of_first(settings);
        self.lead(number);
        added
    }

    /// Takes the widget of a number out, which isn't the only one. It takes no memory.
    pub(crate) fn remove_widget(&mut self, number: usize)
        requires there { number < length (widgets_of self.old.view) }
        requires several { 1 < length (widgets_of self.old.view) }
        ensures { self.new ≡ record self.old { view = view_without number self.old.view } }
    {
        widgets::remove_at(&mut self.view, number);
    }
}
