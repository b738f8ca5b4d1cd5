// Laws of rows, each the contract of a function that does nothing.
ghost use Rattle.std.specs.Prelude.{◌≡◌, ℕ, ◌<◌, ◌++◌, ◌∷◌, [], true, length};
ghost use Rattle.rt_ops.specs.Operations.{Operation};
ghost use Rattle.rt_rows.specs.Rows.{TypedRow, operations_in_row, row_with, is_next_of_row, character_of};

/// A row with characters takes an operation at its end exactly where `is_next_of_row` says so: then the row with the operation's
/// character stands for the row's operations and this one; for no other operation does the row with any one more character.
pub fn rows()
    ensures next { (row : TypedRow) (op : Operation) → 0 < length row.text → is_next_of_row row op ≡ true
        → operations_in_row (row_with row (character_of op.body)) ≡ operations_in_row row ++ op ∷ [] }
    ensures exact { (row : TypedRow) (op : Operation) (c : ℕ) → 0 < length row.text
        → operations_in_row (row_with row c) ≡ operations_in_row row ++ op ∷ [] → is_next_of_row row op ≡ true }
    ensures length { (row : TypedRow) → length (operations_in_row row) ≡ length row.text }
{}
