// What is counted, a number for each in turn.
ghost use Rattle.std.specs.Prelude.{◌≡◌, ◌⊎◌, IfOk, IfErr, Some, None};
ghost use Rattle.rt_stamps.specs.Words.{as_words};
ghost use Rattle.rt_requests.specs.Switches.{measures_of};

use rt_index::Measure;
use rt_stamps::Fault;
use std::alloc::Global;
use std::marker::Model;

/// What is counted, a number for each in turn.
#[derive(Drop)]
pub struct Measures {
    measures: Vec<Measure>,
}

impl Model for Measures {
    ghost use Rattle.std.specs.Prelude.{List};
    ghost use Rattle.rt_index.specs.declared.measure.Measure.{Measure};

    ghost Value = { List Measure };

    ghost view = { λ m. m.measures.items };
}

impl Measures {
    /// Measures in turn.
    pub fn new(measures: Vec<Measure>) -> Measures
        ensures { result ≡ measures.items }
    {
        Measures { measures }
    }

    /// What some switches ask for, in turn. `BadOption` where one is unknown, or want of memory.
    pub fn of(alloc: Global, switches: &[String]) -> Result<Measures, Fault>
        ensures ok { IfOk result (λ measures. measures_of (as_words switches.now) ≡ Some measures) }
        ensures err { IfErr result (λ fault. (fault ≡ Fault.NoMemory)
            ⊎ ((fault ≡ Fault.BadOption) × (measures_of (as_words switches.now) ≡ None))) }
    {
        let mut measures = Vec::new(alloc);
        for switch in switches {
            let Some(measure) = Measure::of(switch) else {
                return Err(Fault::BadOption);
            };
            measures.push(measure)?;
        }
        Ok(Measures { measures })
    }

    /// All of them, in turn.
    pub fn all(&self) -> &[Measure]
        ensures { result.now ≡ self.now }
    {
        &self.measures
    }
}
