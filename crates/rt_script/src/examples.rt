// Worked examples of the definitions: each clause is computed.
ghost use Rattle.std.specs.Prelude.{◌≡◌, true, false, [], ◌∷◌, codes};
ghost use Rattle.rt_script.specs.Lines.{complete_of, is_silent, lines_of};

/// A newline ends a line, and a carriage return just before it isn't the line's. What follows the last newline is a line
/// too, if there is anything. A comment, and a line of spaces and tabs alone, is silent.
pub fn lines()
    ensures lines { lines_of (codes "a\r\nb\r\n\nc\r") ≡ codes "a" ∷ codes "b" ∷ [] ∷ codes "c\r" ∷ [] }
    ensures complete { complete_of (codes "a\nb") ≡ codes "a" ∷ [] }
    ensures nothing_behind { lines_of (codes "a\n") ≡ codes "a" ∷ [] }
    ensures comment { is_silent (codes "#a") ≡ true }
    ensures blank { is_silent (codes " \t") ≡ true }
    ensures text { is_silent (codes "a #") ≡ false }
{}
