// Comparisons of two places.
ghost use Rattle.std.specs.Prelude.{◌≡◌};
ghost use Rattle.rt_text.specs.Comparisons.{holds_of};

use rt_index::Comparison;

/// Whether a comparison holds of two places.
pub(crate) fn holds(comparison: Comparison, first: usize, second: usize) -> bool
    ensures { result ≡ holds_of comparison first second }
{
    match comparison {
        Comparison::Less => first < second,
        Comparison::LessOrEqual => first <= second,
        Comparison::Equal => first == second,
        Comparison::GreaterOrEqual => first >= second,
        Comparison::Greater => first > second,
        Comparison::NotEqual => first != second,
    }
}
