// What is asked of the widgets of a site.
ghost use Rattle.std.specs.Prelude.{◌≡◌, ◌∷◌, ◌++◌, ◌<◌, [], None, Ok, IfErr, OnErr, OnOk, length};
ghost use Rattle.rt_stamps.specs.Outcomes.{Answers, Refuses};
ghost use Rattle.rt_peers.specs.Peers.{text_led};
ghost use Rattle.rt_peers.specs.PeerStep.{Destroys, created, other_paths, path_check, peer_step, text_with_peer};
ghost use Rattle.rt_peers.specs.SiteValue.{number_of_path};

use super::SiteState;
use crate::paths::{number_of, other_paths};
use crate::replies::{no_words, one_word};
use crate::reply::Reply;
use rt_requests::{Path, PeerRequest, WidgetSettings};
use rt_stamps::Fault;

impl SiteState {
    // Adds a new widget of a path that no widget has, which is the last one: the widget of a number makes it, with
    // options. `BadView`, or want of memory; then the site is as it was.
    fn add_widget(
        &mut self,
        number: usize,
        path: &str,
        settings: &WidgetSettings,
    ) -> Result<(), Fault>
        requires number { number < length self.old.paths }
        requires free { number_of_path path.now self.old.paths ≡ None }
        ensures ok { OnOk result (text_with_peer (text_led number self.old.text) settings.now ≡ Ok (text_led number self.new.text)) }
        ensures path { OnOk result (self.new.paths ≡ self.old.paths ++ path.now ∷ []) }
        ensures held { self.new.held ≡ self.old.held }
        ensures err { IfErr result (Refuses (text_with_peer (text_led number self.old.text) settings.now)) }
        ensures unchanged { OnErr result (self.new ≡ self.old) }
    {
        let path = String::from_str(self.alloc, path)?;
        self.paths.reserve(1)?;
        self.text.add_peer(number, settings)?;
        self.paths.push_reserved(path);
        Ok(())
    }

    // `peer create`: the widget of a number makes a new one, with options.
    fn create(
        &mut self,
        number: usize,
        path: &Path<'_>,
        settings: &WidgetSettings,
    ) -> Result<Reply, Fault>
        requires { number < length self.old.paths }
        ensures { Answers (created number path.now self.old settings.now (path_check path.now self.old.paths)) self.old result self.new }
    {
        if number_of(&self.paths, path.text()).is_some() {
            return Err(Fault::WidgetExists);
        }
        let reply = one_word(self.alloc, String::from_str(self.alloc, path.text())?)?;
        self.add_widget(number, path.text(), settings)?;
        Ok(reply)
    }

    // `peer names`: the paths of the widgets but one.
    fn peer_names(&self, path: &str) -> Result<Reply, Fault>
        ensures { Answers (Ok (other_paths path.now self.now.paths, self.now)) self.now result self.now }
    {
        let words = other_paths(self.alloc, &self.paths, path)?;
        Ok(Reply { words })
    }

    // What is asked of the peers of the widget of a path, which is the one of a number (Tk text manual, "Peer widgets").
    // Refused by the first of `WidgetExists` and `BadView`, or for want of memory; then the site is as it was.
    pub(super) fn peers(
        &mut self,
        path: &str,
        number: usize,
        request: &PeerRequest<'_>,
    ) -> Result<Reply, Fault>
        requires { number < length self.old.paths }
        ensures { Answers (peer_step path.now number self.old request.now) self.old result self.new }
    {
        match request {
            PeerRequest::Create {
                path: new,
                settings,
            } => self.create(number, new, settings),
            PeerRequest::Names => self.peer_names(path),
        }
    }

    /// `destroy PATH`: takes the widget of a path away. It has no words in its reply, and takes
    /// no memory. Refused by `NoWidget`, or by `LastWidget` for the only one; then the site is as it was.
    pub fn destroy(&mut self, path: &str) -> Result<Reply, Fault>
        ensures { Destroys path.now self.old result self.new }
    {
        let Some(number) = number_of(&self.paths, path) else {
            return Err(Fault::NoWidget);
        };
        if self.paths.len() == 1 {
            return Err(Fault::LastWidget);
        }
        self.paths.remove(number);
        self.text.remove_widget(number);
        Ok(no_words(self.alloc))
    }
}
