// Laws of the definitions, each the contract of a function that does nothing.
ghost use Rattle.std.specs.Prelude.{◌≡◌, true, false};
ghost use Rattle.rt_stamps.specs.declared.stamp.Stamp.{Stamp};
ghost use Rattle.rt_stamps.specs.Names.{is_name_length};
ghost use Rattle.rt_stamps.specs.Stamps.{is_before, is_same};

/// Stamps stand in one order: of two that differ just one is before the other.
pub fn stamp_order()
    ensures irreflexive { (a : Stamp) → is_before a a ≡ false }
    ensures transitive { (a b c : Stamp) → is_before a b ≡ true → is_before b c ≡ true → is_before a c ≡ true }
    ensures total { (a b : Stamp) → is_before a b ≡ false → is_before b a ≡ false → a ≡ b }
{}

/// The code's comparisons are those of the definitions.
pub fn stamp_comparisons(a: crate::Stamp, b: crate::Stamp) -> (bool, bool)
    ensures before { result.0 ≡ is_before a b }
    ensures same { result.1 ≡ is_same a b }
{
    (a < b, a == b)
}

/// A name has 1 to 255 bytes.
pub fn name_lengths()
    ensures none { is_name_length 0 ≡ false }
    ensures one { is_name_length 1 ≡ true }
    ensures most { is_name_length 255 ≡ true }
    ensures more { is_name_length 256 ≡ false }
{}
