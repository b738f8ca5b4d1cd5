// What is counted between two places.
ghost use Rattle.std.specs.Prelude.{◌≡◌};
ghost use Rattle.rt_index.specs.Measures.{measure_of};

/// What is counted between two places (Tk text manual, "count").
#[derive(Clone, Copy, Debug, PartialEq, Eq)]
pub enum Measure {
    /// `-chars`: characters.
    Chars,
    /// `-indices`: indices, one for each character.
    Indices,
    /// `-lines`: the line of the second place less that of the first.
    Lines,
}

impl Measure {
    /// What a switch asks to be counted. It takes no memory.
    pub fn of(switch: &str) -> Option<Measure>
        ensures { result ≡ measure_of switch.now }
    {
        match switch {
            "-chars" => Some(Measure::Chars),
            "-indices" => Some(Measure::Indices),
            "-lines" => Some(Measure::Lines),
            _ => None,
        }
    }
}
