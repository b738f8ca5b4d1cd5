// Comparisons of two places.
ghost use Rattle.std.specs.Prelude.{◌≡◌};
ghost use Rattle.rt_index.specs.Comparisons.{comparison_of};

/// A comparison of two places (Tk text manual, "compare").
#[derive(Clone, Copy, Debug, PartialEq, Eq)]
pub enum Comparison {
    /// `<`
    Less,
    /// `<=`
    LessOrEqual,
    /// `==`
    Equal,
    /// `>=`
    GreaterOrEqual,
    /// `>`
    Greater,
    /// `!=`
    NotEqual,
}

impl Comparison {
    /// The comparison that an operator names. It takes no memory.
    pub fn of(operator: &str) -> Option<Comparison>
        ensures { result ≡ comparison_of operator.now }
    {
        match operator {
            "<" => Some(Comparison::Less),
            "<=" => Some(Comparison::LessOrEqual),
            "==" => Some(Comparison::Equal),
            ">=" => Some(Comparison::GreaterOrEqual),
            ">" => Some(Comparison::Greater),
            "!=" => Some(Comparison::NotEqual),
            _ => None,
        }
    }
}
