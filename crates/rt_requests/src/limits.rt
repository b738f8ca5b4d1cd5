// Limits of what a widget shows.
ghost use Rattle.std.specs.Prelude.{◌≡◌, ◌<◌, true, length};
ghost use Rattle.std.specs.Str.{all_ascii_digits};
ghost use Rattle.std.specs.Str.Parse.{digits_value};
ghost use Rattle.rt_requests.specs.LimitWords.{limit_at_line, limit_of};

use crate::digits::are_digits;

/// What a limit of a widget is set to (Tk text manual, -startline and -endline): a line of the shared text, by its
/// number, or no limit.
#[derive(Clone, Copy, Debug, PartialEq, Eq)]
pub enum Limit {
    /// No limit.
    Absent,
    /// A line by its number. It may be one that no line has.
    Line(usize),
    /// A line by a number that is too great to be kept. No text has so many lines.
    PastEveryLine,
}

impl Limit {
    /// The limit that a word says: the empty word no limit, and digits alone a line by its number. It takes no memory.
    pub fn of(word: &str) -> Option<Limit>
        ensures { result ≡ limit_of word.now }
    {
        if word.is_empty() {
            return Some(Limit::Absent);
        }
        if !are_digits(word.as_bytes()) {
            return None;
        }
        Some(limit_at_line(word))
    }
}

// The line of the number that digits write.
fn limit_at_line(digits: &str) -> Limit
    requires digits { all_ascii_digits digits.now ≡ true }
    requires some { 0 < length digits.now }
    ensures { result ≡ limit_at_line (digits_value 10 digits.now) }
{
    match digits.parse::<usize>() {
        Ok(number) => Limit::Line(number),
        Err(_) => Limit::PastEveryLine,
    }
}
