// Laws of files that a site receives.
ghost use Rattle.std.specs.Prelude.{ℕ, List};
ghost use Rattle.rt_ops.specs.Operations.{Operation};
ghost use Rattle.rt_holding.specs.Seeing.{FilesAreSeen, FilesAreTaken};

/// Let a site be seen as another that takes operations as it does: a file does the same to both. A site whose log gains what
/// is new when it takes it, and whose limit stays, only takes some operations in turn when it receives a file, each new to it
/// then.
pub fn files<Site, Seen>()
    ensures seen { (see : Site → Seen) (log : Seen → List Operation) (limit : Seen → ℕ) (after : Operation → Site → Site)
        (seen_after : Operation → Seen → Seen) → FilesAreSeen see log limit after seen_after }
    ensures taken { (log : Site → List Operation) (limit : Site → ℕ) (after : Operation → Site → Site)
        → FilesAreTaken log limit after }
{}
