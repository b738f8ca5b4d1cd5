// As many early operations as a replica may hold, and one more.
use crate::checks::same;
use rt_oplog::Op;
use rt_replica::{HoldingReplica, Taken};
use rt_stamps::{Fault, ROOT, Site, Stamp};
use rt_store::TextStore;
use rt_tree::TreeStore;
use std::alloc::Global;
use std::process::Abort;
use std::test::Fail;

/// A replica of site 1 over a tree.
struct Many {
    alloc: Global,
    replica: HoldingReplica<TreeStore>,
}

// Written out, so that each way out of a test lets it go in one step of its proof.
impl Drop for Many {
    fn drop(self) {
        let Many {
            alloc: _,
            replica: _,
        } = self;
    }
}

/// What is answered to an operation: how many are taken, held ones among them; or that none is.
#[derive(Clone, Copy, Debug, PartialEq, Eq)]
enum Said {
    New(usize),
    Repeat,
    Held,
    Refused(Fault),
}

fn told(taken: Taken) -> Said {
    match taken {
        Taken::New(changes) => Said::New(changes.len()),
        Taken::Repeat => Said::Repeat,
        Taken::Held => Said::Held,
    }
}

impl Many {
    fn new(alloc: Global) -> Result<Many, Fail> {
        let site = Site::new(1).ok_or("a site")?;
        let store = TreeStore::new(alloc)?;
        let replica = HoldingReplica::new(alloc, store, site, 100_000)?;
        Ok(Many { alloc, replica })
    }

    // Offers an Insert of one character by site 2 at a count, behind the one of the count before it in its chain, after
    // the root.
    fn offer(&mut self, count: u64) -> Said {
        match typed(self.alloc, count) {
            Ok(op) => match self.replica.accept(op) {
                Ok(taken) => told(taken),
                Err(fault) => Said::Refused(fault),
            },
            Err(fault) => Said::Refused(fault),
        }
    }

    // How many operations are held, and how many characters there are, the final newline among them.
    fn numbers(&self) -> (usize, usize) {
        let store = self.replica.replica().store();
        (self.replica.held(), store.visible())
    }
}

fn typed(alloc: Global, count: u64) -> Result<Op, Fault> {
    let at = Stamp { count, site: 2 };
    let text = Vec::from_slice(alloc, &['x'])?;
    Op::insert(at, count.saturating_sub(1), ROOT, Vec::new(alloc), text)
}

// Offers those of the counts from one to another, which are held.
fn are_held(rt: &impl Abort, many: &mut Many, first: u64, last: u64) {
    for count in first..=last {
        same(rt, many.offer(count), Said::Held);
    }
}

// The first is missing: all others are held but the last, which is refused. Then it comes, and they are taken.
#[test]
fn one_more_than_may_be_held(rt: HostRuntime) -> Result<(), Fail> {
    let mut many = Many::new(rt.alloc())?;
    are_held(&rt, &mut many, 2, 65_537);
    same(&rt, many.offer(65_538), Said::Refused(Fault::WaitingFull));
    same(&rt, many.offer(65_537), Said::Repeat);
    same(&rt, many.numbers(), (65_536, 1));
    same(&rt, many.offer(1), Said::New(65_537));
    same(&rt, many.numbers(), (0, 65_538));
    Ok(())
}
