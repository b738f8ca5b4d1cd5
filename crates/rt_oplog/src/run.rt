// Places of a row that follow one another.
ghost use Rattle.std.specs.Prelude.{◌+◌, ◌^◌, ◌<◌};

use rt_rows::RowPlace;

/// Places of a row that follow one another: the first, and how many more.
#[derive(Clone, Copy)]
pub(crate) struct Run {
    pub row: u32,
    pub at: u32,
    pub more: u32,
    ghost fits: { at + more < 2 ^ 32 },
}

impl Run {
    ghost use Rattle.std.specs.Prelude.{◌≡◌, ◌<◌, [], ◌∷◌, ◌++◌, length, slice_index_or, IfSome, IsSome, true};
    ghost use Rattle.rt_rows.specs.declared.rows.RowPlace.{RowPlace};
    ghost use Rattle.rt_oplog.specs.Runs.{goes_on, places_of};

    /// A place that stands alone so far.
    pub(crate) fn one(place: RowPlace) -> Run
        ensures { places_of result ≡ place ∷ [] }
    {
        Run {
            row: place.row,
            at: place.at,
            more: 0,
        }
    }

    /// How many places there are.
    pub(crate) fn len(self) -> usize
        ensures { result ≡ length (places_of self) }
    {
        self.more as usize + 1
    }

    /// The place at a number.
    pub(crate) fn place(self, number: usize) -> RowPlace
        requires { number < length (places_of self) }
        ensures { (d : RowPlace) → result ≡ slice_index_or (places_of self) number d }
    {
        RowPlace {
            row: self.row,
            at: self.at + number as u32,
        }
    }

    /// These places and one behind them, if it follows the last one.
    pub(crate) fn grown(self, place: RowPlace) -> Option<Run>
        ensures places { IfSome result (λ run. places_of run ≡ places_of self ++ place ∷ []) }
        ensures some { goes_on self place ≡ true → IsSome result }
    {
        if self.row == place.row && self.at < place.at && place.at - self.at - 1 == self.more {
            Some(Run {
                row: self.row,
                at: self.at,
                more: self.more + 1,
            })
        } else {
            None
        }
    }

    /// So many of the places, and the others.
    pub(crate) fn cut(self, number: usize) -> (Run, Run)
        requires some { 0 < number }
        requires within { number < length (places_of self) }
        ensures places { places_of self ≡ places_of result.0 ++ places_of result.1 }
        ensures number { length (places_of result.0) ≡ number }
    {
        let front = Run {
            row: self.row,
            at: self.at,
            more: number as u32 - 1,
        };
        let back = Run {
            row: self.row,
            at: self.at + number as u32,
            more: self.more - number as u32,
        };
        (front, back)
    }
}
