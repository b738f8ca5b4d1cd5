// The text of an Insert.
ghost use Rattle.std.specs.Prelude.{◌≡◌, ◌≢◌, ℕ, ◌∷◌, [], length, IfOk, IfNone, IfSome, IsOk, IsOkUnless};
ghost use Rattle.std.specs.Str.{chars};
ghost use Rattle.rt_ops.specs.Rules.{is_text as is_text_of};
ghost use Rattle.rt_stamps.specs.declared.fault.Fault.TheVariants.{NoMemory};

use crate::rules::is_text;
use rt_stamps::Fault;
use std::alloc::Global;
use std::marker::Model;
use std::slice;

/// The characters of an Insert. A single one, as typed, takes no memory of its own.
#[derive(Drop)]
pub struct Text {
    kept: Kept,
}

#[derive(Drop)]
enum Kept {
    One(char),
    Many(Vec<char>),
}

impl Model for Text {
    ghost use Rattle.std.specs.Prelude.{List, ℕ};

    ghost Value = { List ℕ };

    ghost use Rattle.rt_ops.specs.Texts.{characters_of};

    ghost view = { λ text. characters_of text.kept };
}

impl Text {
    /// A text of these characters.
    pub fn new(characters: Vec<char>) -> Text
        ensures { result ≡ characters.items }
    {
        match characters.as_slice() {
            [character] => Text {
                kept: Kept::One(*character),
            },
            _ => Text {
                kept: Kept::Many(characters),
            },
        }
    }

    /// A text of one character.
    pub fn of(character: char) -> Text
        ensures { result ≡ character ∷ [] }
    {
        Text {
            kept: Kept::One(character),
        }
    }

    /// The characters of a string. A single one takes no memory. `NoMemory` is its only fault.
    pub(crate) fn of_str(alloc: Global, string: &str) -> Result<Text, Fault>
        ensures ok { IfOk result (λ text. text ≡ chars string.now) }
        ensures fault { IsOkUnless result NoMemory }
    {
        if let Some(character) = only_char(string) {
            return Ok(Text::of(character));
        }
        let characters: Vec<char> = string.chars().collect(alloc)?;
        Ok(Text::new(characters))
    }

    /// A text of these characters, copied: a single one takes no memory. `NoMemory` is its only fault.
    pub fn copy_of(alloc: Global, characters: &[char]) -> Result<Text, Fault>
        ensures copy { IfOk result (λ text. text ≡ characters.now) }
        ensures one { length characters.now ≡ 1 → IsOk result }
        ensures fault { IsOkUnless result NoMemory }
    {
        match characters {
            [character] => Ok(Text::of(*character)),
            _ => Ok(Text {
                kept: Kept::Many(Vec::from_slice(alloc, characters)?),
            }),
        }
    }

    /// Whether the text keeps its rules.
    pub(crate) fn keeps_rules(&self) -> bool
        ensures { result ≡ is_text_of self.now }
    {
        match &self.kept {
            Kept::One(character) => is_text(slice::from_ref(character)),
            Kept::Many(characters) => is_text(characters),
        }
    }

    /// The characters.
    pub fn characters(&self) -> &[char]
        ensures { result.now ≡ self.now }
    {
        match &self.kept {
            Kept::One(character) => slice::from_ref(character),
            Kept::Many(characters) => characters.as_slice(),
        }
    }
}

/// The only character of a string, if it has one and no more.
fn only_char(string: &str) -> Option<char>
    ensures only { IfSome result (λ character. chars string.now ≡ character ∷ []) }
    ensures none { IfNone result (length (chars string.now) ≢ 1) }
{
    let mut characters = string.chars();
    let first = characters.next()?;
    match characters.next() {
        Some(_) => None,
        None => Some(first),
    }
}
