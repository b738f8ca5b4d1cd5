// Runs of cells, from stamps on.
ghost use Rattle.std.specs.Prelude.{◌≡◌, ◌≤◌, IfSome, option_map};
ghost use Rattle.rt_store.specs.Cells.{GoOnTo, cell_of};

use super::Tree;
use crate::run_with::{SoughtRun, rest_from, run_with};
use rt_stamps::Stamp;
use rt_store::CellRun;

impl Tree {
    // The first cell that has a stamp, as a run of its own, by a walk from run to run.
    fn walked_run(&self, stamp: Stamp) -> Option<CellRun>
        ensures cell { option_map (λ run. run.cell) result ≡ cell_of self.now.cells stamp }
        ensures run { IfSome result (λ run. GoOnTo self.now.cells run.cell run.last) }
        ensures last { IfSome result (λ run. run.last ≡ stamp.count) }
    {
        let cell = self.walked_cell(stamp)?;
        Some(CellRun {
            cell,
            last: stamp.count,
        })
    }

    /// The cell of a stamp, gone or not, with the rest of the run that it is in, up to a count; none if no cell has
    /// the stamp. Where the map of leaves isn't sure (`is_sure`), it is a run of its own.
    pub fn run_from(&self, stamp: Stamp, last: u64) -> Option<CellRun>
        requires { stamp.count ≤ last }
        ensures cell { option_map (λ run. run.cell) result ≡ cell_of self.now.cells stamp }
        ensures run { IfSome result (λ run. GoOnTo self.now.cells run.cell run.last) }
        ensures last { IfSome result (λ run. (stamp.count ≤ run.last) × (run.last ≤ last)) }
    {
        match run_with(&self.homes, &self.mem, self.root, &self.last, stamp) {
            SoughtRun::Nowhere => None,
            SoughtRun::Is(run) => Some(rest_from(run, &self.text, stamp, last)),
            SoughtRun::Unknown => self.walked_run(stamp),
        }
    }
}
