// What a command replies.
use std::marker::Model;

/// The words of a reply.
#[derive(Drop)]
pub struct Reply {
    pub words: Vec<String>,
}

impl Model for Reply {
    ghost use Rattle.std.specs.Prelude.{List};
    ghost use Rattle.rt_stamps.specs.Words.{Word, as_words};

    ghost Value = { List Word };

    ghost view = { λ r. as_words r.words.items };
}
