// Stretches of a text.
ghost use Rattle.std.specs.Prelude.{◌≡◌, ◌<◌, ◌≤◌, ◌-◌};
ghost use Rattle.rt_lines.specs.Stretches.{seen_cursor, seen_place};

/// The places of a text from one up to before another one: none if the end isn't behind the beginning. Places count
/// the characters of the whole text, from 0.
#[derive(Clone, Copy, Debug, PartialEq, Eq)]
pub struct Stretch {
    /// The first place.
    pub begin: usize,
    /// The place behind the last one.
    pub end: usize,
}

impl Stretch {
    /// A place of the whole text as one of the stretch: what stands outside is brought to the nearer end. It counts
    /// from the stretch's beginning, from 0 up to the number of its characters. It takes no memory.
    pub fn place(self, place: usize) -> usize
        requires { self.begin ≤ self.end }
        ensures value { result ≡ seen_place self place }
        ensures within { result ≤ self.end - self.begin }
    {
        place.clamp(self.begin, self.end) - self.begin
    }

    /// A place of the whole text as one of the stretch, for the insertion cursor: it is never behind the last newline.
    /// It counts from the stretch's beginning, from 0 up to one less than the number of its characters, of which there
    /// must be one at least. It takes no memory.
    pub fn cursor(self, place: usize) -> usize
        requires { self.begin < self.end }
        ensures value { result ≡ seen_cursor self place }
        ensures within { result < self.end - self.begin }
    {
        self.place(place).min(self.end - self.begin - 1)
    }
}
