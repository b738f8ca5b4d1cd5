// Widgets that are to go.
ghost use Rattle.std.specs.Prelude.{◌≡◌};
ghost use Rattle.rt_stamps.specs.Words.{as_words};
ghost use Rattle.rt_requests.specs.PeerWords.{asked_destroy};

use crate::word::Word;
use rt_stamps::Fault;

/// What the line `destroy PATH` asks for: the widget of a path is taken away.
#[derive(Drop)]
pub struct Destroy<'a> {
    pub path: Word<'a>,
}

impl<'a> Destroy<'a> {
    /// What the words behind `destroy` ask for: one word, which may be the path of a widget. Refused by `BadCommand`.
    /// It takes no memory.
    pub fn of(words: &'a [String]) -> Result<Destroy<'a>, Fault>
        ensures { result ≡ asked_destroy (as_words words.now) }
    {
        let [path] = words else {
            return Err(Fault::BadCommand);
        };
        Ok(Destroy {
            path: Word::new(path),
        })
    }
}
