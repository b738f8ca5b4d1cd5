// Characters of a text in a buffer, and those of cells behind a text.
ghost use Rattle.std.specs.Prelude.{◌≡◌, ◌+◌, ◌≤◌, ◌++◌, length, map, take, drop, vec_capacity, vec_len};

use rt_store::Cell;
use rt_tags::StateId;

// Puts so many characters of a text, from one on, into a buffer, from a place of it on.
pub(crate) fn copy(text: &[char], from: usize, buffer: &mut [char], at: usize, count: usize)
    requires has { from + count ≤ length text.now }
    requires within { at + count ≤ length buffer.old }
    ensures characters { take (at + count) buffer.new ≡ take at buffer.old ++ take count (drop from text.now) }
    ensures rest { drop (at + count) buffer.new ≡ drop (at + count) buffer.old }
{
    for i in 0..count {
        let ch = text[from + i];
        buffer[at + i] = ch;
    }
}

// Puts the characters of cells behind a text that has room for them.
#[inline(always)]
pub(crate) fn push_characters(text: &mut Vec<char>, cells: &[Cell<StateId>])
    requires room { vec_len text.old + length cells.now ≤ vec_capacity text.old }
    ensures items { text.new.items ≡ text.old.items ++ map (λ cell. cell.ch) cells.now }
    ensures capacity { vec_capacity text.old ≤ vec_capacity text.new }
{
    for cell in cells {
        text.push(cell.ch).unwrap();
    }
}
