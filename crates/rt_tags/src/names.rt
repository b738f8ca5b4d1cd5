// Names in a set that keeps their order.
ghost use Rattle.std.specs.Prelude.{◌≡◌, ◌+◌, ◌-◌, ◌≤◌, ◌<◌, ◌++◌, ◌∷◌, [], ℕ, List, Some, IfOk, IfSome, OnErr, OnOk, drop, is_some, length, string_bytes, take, false};
ghost use Rattle.rt_stamps.specs.Words.{as_words};
ghost use Rattle.indexmap.specs.IndexSet.{index_set_len, move_index, spare};
ghost use Rattle.rt_tags.specs.Seen.{IsAt, names_of};
ghost use Rattle.rt_tags.specs.Kept.{IsListing};
ghost use Rattle.rt_tags.specs.Tags.{HaveNoRepeats, is_listed, lowered, raised, with_name};

use indexmap::IndexSet;
use std::alloc::{AllocError, Global};

/// Where a name stands.
pub fn index_of(names: &IndexSet<String>, name: &str) -> Option<usize>
    ensures found { is_some result ≡ is_listed name.now (names_of names.now) }
    ensures index { IfSome result (λ i. IsAt name.now (names_of names.now) i) }
    ensures within { IfSome result (λ i. i < index_set_len names.now) }
{
    names.get_index_of(name)
}

/// Copies of names.
pub fn copied(alloc: Global, names: &[String]) -> Result<Vec<String>, AllocError>
    ensures { IfOk result (λ v. as_words v.items ≡ as_words names.now) }
{
    let mut copies = Vec::with_capacity(alloc, names.len())?;
    for name in names {
        copies.push(name.clone()?)?;
    }
    Ok(copies)
}

/// Makes room for more names.
pub fn make_room(names: &mut IndexSet<String>, more: usize) -> Result<(), AllocError>
    ensures names { names_of names.new ≡ names_of names.old }
    ensures len { index_set_len names.new ≡ index_set_len names.old }
    ensures room { OnOk result (more ≤ spare names.new) }
    ensures kept { spare names.old ≤ spare names.new }
{
    names.reserve(more)
}

/// Adds a name behind the others.
pub fn add(names: &mut IndexSet<String>, name: String)
    requires room { 0 < spare names.old }
    requires new { is_listed (string_bytes name) (names_of names.old) ≡ false }
    ensures names { names_of names.new ≡ names_of names.old ++ string_bytes name ∷ [] }
    ensures len { index_set_len names.new ≡ index_set_len names.old + 1 }
    ensures room { spare names.old ≤ spare names.new + 1 }
    ensures no_repeats { HaveNoRepeats (names_of names.new) }
{
    names.insert(name).unwrap();
}

/// Adds a name behind the others, none of which it is, and a mark for it, and answers its index. Want of
/// memory, and then they stay.
pub fn add_new(
    alloc: Global,
    names: &mut IndexSet<String>,
    marks: &mut Vec<bool>,
    name: &str,
) -> Result<usize, AllocError>
    requires new { is_listed name.now (names_of names.old) ≡ false }
    requires marks { length marks.old.items ≡ length (names_of names.old) }
    ensures marks { length marks.new.items ≡ length (names_of names.new) }
    ensures index { IfOk result (λ i. IsAt name.now (names_of names.new) i) }
    ensures within { IfOk result (λ i. i < index_set_len names.new) }
    ensures names { OnOk result (names_of names.new ≡ names_of names.old ++ name.now ∷ []) }
    ensures no_repeats { OnOk result (HaveNoRepeats (names_of names.new)) }
    ensures err { OnErr result (names_of names.new ≡ names_of names.old) }
{
    let index = names.len();
    let name = String::from_str(alloc, name)?;
    marks.reserve(1)?;
    make_room(names, 1)?;
    marks.push(false).unwrap();
    add(names, name);
    Ok(index)
}

/// Brings the name at an index to another before it; those before this one stay, and those behind the
/// first.
pub fn bring(names: &mut IndexSet<String>, from: usize, to: usize)
    requires from { from < index_set_len names.old }
    requires to { to ≤ from }
    ensures behind { drop (from + 1) (names_of names.new) ≡ drop (from + 1) (names_of names.old) }
    ensures front { (name : List ℕ) → IsAt name (names_of names.old) from → take (to + 1) (names_of names.new) ≡ take to (names_of names.old)
        ++ name ∷ [] }
    ensures same { (name : List ℕ) → is_listed name (names_of names.new) ≡ is_listed name (names_of names.old) }
    ensures len { index_set_len names.new ≡ index_set_len names.old }
    ensures no_repeats { HaveNoRepeats (names_of names.new) }
{
    names.swap_indices(from, to);
}

/// Lists the name at an index, behind so many that are listed, and answers how many are then.
pub fn list(names: &mut IndexSet<String>, listed: usize, index: usize) -> usize
    requires listed { IsListing (names_of names.old) listed }
    requires index { index < index_set_len names.old }
    ensures listed { IsListing (names_of names.new) result }
    ensures names { (name : List ℕ) → IsAt name (names_of names.old) index
        → take result (names_of names.new) ≡ with_name name (take listed (names_of names.old)) }
    ensures len { length (names_of names.new) ≡ length (names_of names.old) }
    ensures same { (name : List ℕ) → is_listed name (names_of names.new) ≡ is_listed name (names_of names.old) }
{
    if index < listed {
        return listed;
    }
    let all = names.len();
    prove!(index < all);
    bring(names, index, listed);
    listed + 1
}

/// Moves the name at an index to another, both among so many that are listed.
pub fn shift(names: &mut IndexSet<String>, listed: usize, from: usize, to: usize)
    requires listed { IsListing (names_of names.old) listed }
    requires from { from < listed }
    requires to { to < listed }
    ensures listed { IsListing (names_of names.new) listed }
    ensures names { take listed (names_of names.new) ≡ move_index (take listed (names_of names.old)) from to }
    ensures len { length (names_of names.new) ≡ length (names_of names.old) }
    ensures same { (name : List ℕ) → is_listed name (names_of names.new) ≡ is_listed name (names_of names.old) }
{
    names.move_index(from, to);
}

/// Moves the name at an index above all that are listed.
pub fn shift_highest(names: &mut IndexSet<String>, listed: usize, from: usize)
    requires listed { IsListing (names_of names.old) listed }
    requires from { from < listed }
    ensures listed { IsListing (names_of names.new) listed }
    ensures names { take listed (names_of names.new) ≡ move_index (take listed (names_of names.old)) from (listed - 1) }
    ensures len { length (names_of names.new) ≡ length (names_of names.old) }
    ensures same { (name : List ℕ) → is_listed name (names_of names.new) ≡ is_listed name (names_of names.old) }
{
    shift(names, listed, from, listed - 1);
}

/// Moves the name at an index just above that at another, both among so many that are listed.
pub fn shift_above(names: &mut IndexSet<String>, listed: usize, from: usize, to: usize)
    requires listed { IsListing (names_of names.old) listed }
    requires from { from < listed }
    requires to { to < listed }
    ensures listed { IsListing (names_of names.new) listed }
    ensures names { (name other : List ℕ) → IsAt name (take listed (names_of names.old)) from
        → IsAt other (take listed (names_of names.old)) to → take listed (names_of names.new)
        ≡ raised name (Some other) (take listed (names_of names.old)) }
    ensures len { length (names_of names.new) ≡ length (names_of names.old) }
    ensures same { (name : List ℕ) → is_listed name (names_of names.new) ≡ is_listed name (names_of names.old) }
{
    if from < to {
        shift(names, listed, from, to);
    } else if to < from {
        shift(names, listed, from, to + 1);
    }
}

/// Moves the name at an index just below that at another, both among so many that are listed.
pub fn shift_below(names: &mut IndexSet<String>, listed: usize, from: usize, to: usize)
    requires listed { IsListing (names_of names.old) listed }
    requires from { from < listed }
    requires to { to < listed }
    ensures listed { IsListing (names_of names.new) listed }
    ensures names { (name other : List ℕ) → IsAt name (take listed (names_of names.old)) from
        → IsAt other (take listed (names_of names.old)) to → take listed (names_of names.new)
        ≡ lowered name (Some other) (take listed (names_of names.old)) }
    ensures len { length (names_of names.new) ≡ length (names_of names.old) }
    ensures same { (name : List ℕ) → is_listed name (names_of names.new) ≡ is_listed name (names_of names.old) }
{
    if from < to {
        shift(names, listed, from, to - 1);
    } else if to < from {
        shift(names, listed, from, to);
    }
}
