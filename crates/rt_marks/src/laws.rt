// Laws of the definitions, each the contract of a function that does nothing.
ghost use Rattle.std.specs.Prelude.{◌≡◌, ℕ, ◌+◌, ◌-◌, ◌<◌, ◌≤◌, Bool, false, List, None, Some, option_map, if◌then◌else◌};
ghost use Rattle.std.specs.List.{AllByRecursion};
ghost use Rattle.std.specs.Str.{bytes_eq};
ghost use Rattle.rt_marks.specs.declared.gravity.Gravity.{Gravity};
ghost use Rattle.rt_marks.specs.Marks.{AreInOrder, HaveOwnNames, Mark, gravity_or_right, in_order, is_within_or, mark_inserted, mark_left, mark_removed, marks_inserted, marks_left, marks_removed, place_left, place_removed, marks_set, marks_with_gravity, mark_of_name, without_mark};

/// Marks put in order are in order, and are the same marks; marks that are in order stay as they are.
pub fn order_of_marks()
    ensures ordered { (marks : List Mark) → HaveOwnNames marks → AreInOrder (in_order marks) }
    ensures found { (name : List ℕ) (marks : List Mark) → HaveOwnNames marks → mark_of_name name (in_order marks) ≡ mark_of_name name marks }
    ensures unchanged { (marks : List Mark) → AreInOrder marks → in_order marks ≡ marks }
{}

/// Text that is inserted leaves marks in order. The marks of its gap part by their gravity, the left
/// ones before the text and the right ones behind it, which is why left gravity comes first.
pub fn order_after_insertion()
    ensures { (place n : ℕ) (marks : List Mark) → AreInOrder marks → AreInOrder (marks_inserted place n marks) }
{}

/// What a name finds after each edit.
pub fn look_ups()
    ensures after_set { (q name : List ℕ) (place : ℕ) (marks : List Mark)
        → mark_of_name q (marks_set name place marks) ≡ (if bytes_eq name q then Some
        (record { name = name; place = place; gravity = gravity_or_right name marks }) else mark_of_name q marks) }
    ensures after_unset { (q name : List ℕ) (marks : List Mark) → mark_of_name q (without_mark name marks)
        ≡ (if bytes_eq name q then None else mark_of_name q marks) }
    ensures after_insertion { (q : List ℕ) (place n : ℕ) (marks : List Mark)
        → mark_of_name q (marks_inserted place n marks) ≡ option_map (mark_inserted place n) (mark_of_name q marks) }
    ensures after_removal { (q : List ℕ) (place n : ℕ) (marks : List Mark) → HaveOwnNames marks
        → mark_of_name q (marks_removed place n marks) ≡ option_map (mark_removed place n) (mark_of_name q marks) }
    ensures after_removals { (q : List ℕ) (removed : ℕ → Bool) (marks : List Mark) → HaveOwnNames marks
        → mark_of_name q (marks_left removed marks) ≡ option_map (mark_left removed) (mark_of_name q marks) }
{}

/// Marks within a text of some size are within it after each edit.
pub fn marks_within_the_text()
    ensures after_set { (name : List ℕ) (place size : ℕ) (marks : List Mark) → place ≤ size → AllByRecursion (λ m. m.place ≤ size) marks
        → AllByRecursion (λ m. m.place ≤ size) (marks_set name place marks) }
    ensures after_unset { (name : List ℕ) (size : ℕ) (marks : List Mark) → AllByRecursion (λ m. m.place ≤ size) marks → AllByRecursion
        (λ m. m.place ≤ size) (without_mark name marks) }
    ensures after_gravity { (name : List ℕ) (gravity : Gravity) (size : ℕ) (marks : List Mark)
        → AllByRecursion (λ m. m.place ≤ size) marks → AllByRecursion (λ m. m.place ≤ size) (marks_with_gravity name gravity marks) }
    ensures after_insertion { (place n size : ℕ) (marks : List Mark) → AllByRecursion (λ m. m.place ≤ size) marks
        → AllByRecursion (λ m. m.place ≤ size + n) (marks_inserted place n marks) }
    ensures after_removal { (place n size : ℕ) (marks : List Mark) → place + n ≤ size → AllByRecursion (λ m. m.place ≤ size) marks
        → AllByRecursion (λ m. m.place ≤ size - n) (marks_removed place n marks) }
    ensures after_removals { (removed : ℕ → Bool) (size : ℕ) (marks : List Mark) → AllByRecursion (λ m. m.place ≤ size) marks
        → AllByRecursion (λ m. m.place ≤ place_left removed size) (marks_left removed marks) }
{}

/// Several ranges are removed one after the other from the last to the first, each without moving those
/// before it: then the marks and each place stand where removing all at once would leave them.
pub fn removals_from_the_last()
    ensures place { (later : ℕ → Bool) (from to : ℕ) → ((p : ℕ) → p < to → later p ≡ false) → (p : ℕ)
        → place_removed from (to - from) (place_left later p) ≡ place_left (is_within_or from to later) p }
    ensures marks { (later : ℕ → Bool) (from to : ℕ) → ((p : ℕ) → p < to → later p ≡ false) → (marks : List Mark)
        → marks_removed from (to - from) (marks_left later marks) ≡ marks_left (is_within_or from to later) marks }
    ensures none { (removed : ℕ → Bool) → ((p : ℕ) → removed p ≡ false) → (marks : List Mark) → AreInOrder marks
        → marks_left removed marks ≡ marks }
{}
