// Laws of the definitions, each the contract of a function that does nothing.
ghost use Rattle.std.specs.Prelude.{◌≡◌, ◌⊎◌, ℕ, List};
ghost use Rattle.rt_stamps.specs.Words.{Word};
ghost use Rattle.rt_words.specs.Spelling.{IsBadlyQuoted, IsBadlyQuotedList, Spells, SpellsList};

/// A line spells at most one list of words, and so does a list.
pub fn spelling_is_unique()
    ensures line { (line : List ℕ) (a b : List Word) → Spells line a → Spells line b → a ≡ b }
    ensures list { (list : List ℕ) (a b : List Word) → SpellsList list a → SpellsList list b → a ≡ b }
{}

/// Each line spells words or is badly quoted, and so is it with each list.
pub fn spelling_is_total()
    ensures line { (line : List ℕ) → ((words : List Word) × Spells line words) ⊎ IsBadlyQuoted line }
    ensures list { (list : List ℕ) → ((words : List Word) × SpellsList list words) ⊎ IsBadlyQuotedList list }
{}
