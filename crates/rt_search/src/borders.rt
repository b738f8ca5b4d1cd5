// The borders of a pattern: the fronts of it that are ends of it too.
ghost use Rattle.std.specs.Prelude.{◌≡◌, ◌+◌, ◌<◌, ◌≤◌, ℕ, IfOk, IsOkUnless, length};
ghost use Rattle.rt_search.specs.Borders.{CharactersAgree, AreBorders, IsFurther, as_compared, pattern_read, read_at};

use crate::search::{Direction, Search, agree};
use rt_stamps::Fault;
use std::alloc::Global;

/// Which of so many characters is read after so many others: from the front on, or from the end back.
pub(crate) fn read_at(direction: Direction, many: usize, index: usize) -> usize
    requires { index < many }
    ensures value { result ≡ read_at direction many index }
    ensures within { result < many }
{
    match direction {
        Direction::Forwards => index,
        Direction::Backwards => many - 1 - index,
    }
}

/// How many of the pattern's first characters are the last ones read, once a character is read too: the most of those
/// that follow from `before` of them that were so. It falls from border to border until one goes on with the character.
pub(crate) fn further(
    search: Search,
    pattern: &[char],
    borders: &[usize],
    before: usize,
    character: char,
) -> usize
    requires before { before < length pattern.now }
    requires some { before ≤ length borders.now }
    requires borders { AreBorders (pattern_read search pattern.now) borders.now }
    ensures few { result ≤ before + 1 }
    ensures further { (text : ℕ → ℕ) (start : ℕ) → CharactersAgree (pattern_read search pattern.now) text start before
        → text (start + before) ≡ as_compared search.case character → IsFurther (pattern_read search pattern.now) text start before result }
{
    let mut agreed = before;
    while !agree(
        search.case,
        pattern[read_at(search.direction, pattern.len(), agreed)],
        character,
    ) {
        if agreed == 0 {
            return 0;
        }
        agreed = borders[agreed - 1];
    }
    agreed + 1
}

/// The longest border of each front of the pattern as it is read. It costs at most two comparisons for each character,
/// and memory for a number for each; `NoMemory` where that is refused.
pub(crate) fn borders_of(
    alloc: Global,
    search: Search,
    pattern: &[char],
) -> Result<Vec<usize>, Fault>
    ensures many { IfOk result (λ borders. length borders.items ≡ length pattern.now) }
    ensures ok { IfOk result (λ borders. AreBorders (pattern_read search pattern.now) borders.items) }
    ensures err { IsOkUnless result Fault.NoMemory }
{
    let mut borders = Vec::with_capacity(alloc, pattern.len())?;
    let mut agreed = 0;
    for index in 0..pattern.len() {
        if index > 0 {
            let character = pattern[read_at(search.direction, pattern.len(), index)];
            agreed = further(search, pattern, &borders, agreed, character);
        }
        borders.push(agreed)?;
    }
    Ok(borders)
}
