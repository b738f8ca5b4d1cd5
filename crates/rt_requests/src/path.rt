// Paths of widgets.
ghost use Rattle.std.specs.Prelude.{◌≡◌, None, Some, if◌then◌else◌};
ghost use Rattle.rt_requests.specs.Paths.{is_path};

use std::marker::Model;

/// A path that a widget can have: a dot, and one character at least.
#[derive(Drop)]
pub struct Path<'a> {
    text: &'a str,
}

impl<'a> Model for Path<'a> {
    ghost use Rattle.std.specs.Prelude.{◌≡◌, List, true, ℕ};
    ghost use Rattle.rt_requests.specs.Paths.{is_path};

    ghost Value = { List ℕ };

    ghost view = { λ p. p.text.now };

    ghost invariant = { λ p. is_path p.text.now ≡ true };
}

impl<'a> Path<'a> {
    /// The path that a word is. None where it is none. It takes no memory.
    pub fn of(word: &'a str) -> Option<Path<'a>>
        ensures { result ≡ (if is_path word.now then Some word.now else None) }
    {
        if !is_path(word.as_bytes()) {
            return None;
        }
        Some(Path { text: word })
    }

    /// Its text.
    pub fn text(&self) -> &'a str
        ensures { result.now ≡ self.now }
    {
        self.text
    }
}

// Whether a word is a path.
fn is_path(word: &[u8]) -> bool
    ensures { result ≡ is_path word.now }
{
    match word {
        [first, _, ..] => *first == b'.',
        _ => false,
    }
}
