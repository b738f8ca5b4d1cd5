// Worked examples of the definitions, each of a few characters.
ghost use Rattle.std.specs.Prelude.{◌≡◌, ℕ, List, [], ◌∷◌, codes};
ghost use Rattle.rt_words.specs.Spelling.{IsBadlyQuoted, Spells, SpellsList};
ghost use Rattle.rt_words.specs.Writing.{text_of_word};

/// A word is written bare, or in quotes if it is empty or has a space, a newline, a quote or a brace.
pub fn writing()
    ensures bare { text_of_word (codes "abc") ≡ codes "abc" }
    ensures empty { text_of_word [] ≡ codes "\"\"" }
    ensures space { text_of_word (codes "a b") ≡ codes "\"a b\"" }
    ensures newline { text_of_word (codes "a\nb") ≡ codes "\"a\\nb\"" }
    ensures quote { text_of_word (codes "a\"b") ≡ codes "\"a\\\"b\"" }
    ensures brace { text_of_word (codes "a}") ≡ codes "\"a}\"" }
{}

/// Spaces and tabs separate words, and in a list newlines do. A closing brace may stand in a bare word and
/// within quotes. Between braces a text stands as it is. A brace that nothing closes spells no word.
pub fn reading()
    ensures none { Spells (codes " ") [] }
    ensures two { Spells (codes " a  b\t") (codes "a" ∷ codes "b" ∷ []) }
    ensures line { Spells (codes "a\nb") (codes "a\nb" ∷ []) }
    ensures list { SpellsList (codes "a\nb") (codes "a" ∷ codes "b" ∷ []) }
    ensures empty { Spells (codes "\"\"") ([] ∷ []) }
    ensures escape { Spells (codes "\"a\\nb\"") (codes "a\nb" ∷ []) }
    ensures bare { Spells (codes "a}") (codes "a}" ∷ []) }
    ensures quoted { Spells (codes "\"a}\"") (codes "a}" ∷ []) }
    ensures braced { Spells (codes "{a {b}}") (codes "a {b}" ∷ []) }
    ensures unclosed { IsBadlyQuoted (codes "{a") }
{}
