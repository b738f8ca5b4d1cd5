// The lines that limits ask for.
ghost use Rattle.std.specs.Prelude.{◌≡◌};
ghost use Rattle.rt_peers.specs.Options.{choice_of};

use rt_lines::Choice;
use rt_requests::Limit;

/// What a limit asks for. A line whose number is too great to be kept is asked for by the greatest number.
pub(crate) fn choice_of(limit: Option<Limit>) -> Choice
    ensures { result ≡ choice_of limit }
{
    match limit {
        None => Choice::Kept,
        Some(Limit::Absent) => Choice::Away,
        Some(Limit::Line(number)) => Choice::Line(number),
        Some(Limit::PastEveryLine) => Choice::Line(usize::MAX),
    }
}
