// An element of a dump at its place.
ghost use Rattle.std.specs.Prelude.{◌≡◌, string_bytes};
ghost use Rattle.rt_tagcmd.specs.Elements.{element_at};

use crate::{Element, Key};
use rt_stamps::Position;
use std::marker::Model;

/// An element of a dump, with its place as a number of characters.
#[derive(Debug, Drop)]
pub(crate) struct Placed {
    key: Key,
    value: String,
    place: usize,
}

impl Model for Placed {
    ghost use Rattle.std.specs.Prelude.{string_bytes};
    ghost use Rattle.rt_tagcmd.specs.Elements.{Placed};

    ghost Value = { Placed };

    ghost view = { λ p. record { key = p.key; value = string_bytes p.value; place = p.place } };
}

impl Placed {
    /// An element at a place. It takes no memory.
    pub(crate) fn new(key: Key, value: String, place: usize) -> Placed
        ensures { result ≡ element_at key (string_bytes value) place }
    {
        Placed { key, value, place }
    }

    /// The place where it stands.
    pub(crate) fn place(&self) -> usize
        ensures { result ≡ self.now.place }
    {
        self.place
    }

    /// It at the line and the character of its place.
    pub(crate) fn at(self, position: Position) -> Element
        ensures { result ≡ record { key = self.key; value = self.value; position = position } }
    {
        Element::new(self.key, self.value, position)
    }
}
