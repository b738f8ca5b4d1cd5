// The most groups that the undo stack may have.
ghost use Rattle.std.specs.Prelude.{◌≡◌, true};
ghost use Rattle.rt_requests.specs.MaxUndoWords.{most_groups_of, is_negated, is_number, max_undo_of};

use crate::digits::is_number;

// The greatest limit. No stack has so many groups.
const GREATEST: u64 = i64::MAX as u64;

/// The most groups that a word says (Tk text manual, -maxundo): its number, and 2^63 - 1 for a greater one. No limit is
/// said by 0, and by a number with a minus in front, which counts as 0. None for any other word. It takes no memory.
pub(crate) fn max_undo_of(word: &str) -> Option<u64>
    ensures { result ≡ max_undo_of word.now }
{
    if is_negated(word.as_bytes()) {
        return Some(0);
    }
    if !is_number(word.as_bytes()) {
        return None;
    }
    Some(groups_of(word))
}

// Whether a text is a number with a minus in front.
fn is_negated(text: &[u8]) -> bool
    ensures { result ≡ is_negated text.now }
{
    match text {
        [b'-', digits @ ..] => is_number(digits),
        _ => false,
    }
}

// The groups that digits say.
fn groups_of(digits: &str) -> u64
    requires { is_number digits.now ≡ true }
    ensures { result ≡ most_groups_of digits.now }
{
    match digits.parse::<u64>() {
        Ok(number) => number.min(GREATEST),
        Err(_) => GREATEST,
    }
}
