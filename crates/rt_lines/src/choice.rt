// What a command asks for a limit.

/// What a command asks for a limit, by its option `-startline` or `-endline` (Tk text manual, "Peer widgets").
#[derive(Clone, Copy, Debug, PartialEq, Eq)]
pub enum Choice {
    /// Nothing, as the option is not given: the limit stays.
    Kept,
    /// To take the limit away, as the option's value is empty.
    Away,
    /// A line of the whole text, which count from 1: the first one shown for the start, the one behind the last for the
    /// end. Any number may stand here; `Limits::with_lines` refuses one that doesn't fit.
    Line(usize),
}
