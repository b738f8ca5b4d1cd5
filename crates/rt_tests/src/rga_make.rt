// A site's own operations, answered as they are logged, and what another site makes of them.
ghost use Rattle.std.specs.Prelude.{◌≡◌, ◌≤◌, ◌∷◌, [], IfOk, map};
ghost use Rattle.rt_stamps.specs.declared.limits.TheConstants.{MOST_CELLS};
ghost use Rattle.rt_ops.specs.Edits.{body_of};
ghost use Rattle.rt_ops.specs.Operations.{Delete, Insert};

use crate::checks::{same, same_len};
use rt_oplog::{Op, Text};
use rt_replica::{HoldingReplica, Made, Taken};
use rt_rga::Draft;
use rt_stamps::{Fault, ROOT, Site, Span, Stamp};
use rt_store::{ListStore, TextStore};
use std::alloc::Global;
use std::process::Abort;
use std::test::Fail;

/// A replica of site 1.
pub(crate) struct Own {
    alloc: Global,
    pub(crate) replica: HoldingReplica<ListStore>,
}

// Written out, so that each way out of a test lets it go in one step of its proof.
impl Drop for Own {
    fn drop(self) {
        let Own {
            alloc: _,
            replica: _,
        } = self;
    }
}

impl Own {
    /// One for at most so many cells, the final newline and those that are gone among them.
    pub(crate) fn new(alloc: Global, limit: usize) -> Result<Own, Fail>
        requires { (1 ≤ limit) × (limit ≤ MOST_CELLS) }
        ensures { IfOk result (λ own. (own.replica.log ≡ []) × (own.replica.site ≡ 1)) }
    {
        let site = Site::new(1).ok_or("a site")?;
        let store = ListStore::new(alloc)?;
        let replica = HoldingReplica::new(alloc, store, site, limit)?;
        Ok(Own { alloc, replica })
    }

    // What becomes of an insertion of one character in front of the text.
    fn made_in_front(&mut self) -> Result<Made, Fault> {
        let mut drafts = Vec::new(self.alloc);
        drafts.push(insert(self.alloc, ROOT, &['a'])?)?;
        self.replica.make(drafts)
    }

    /// Makes an insertion of one character in front of the text.
    pub(crate) fn type_in_front(&mut self) -> Result<(), Fault> {
        self.made_in_front()?;
        Ok(())
    }

    // How many operations there are, and how many characters, and the first of these.
    fn state(&self) -> (usize, usize, [char; 4]) {
        let mut text = ['-'; 4];
        let count = self.replica.replica().store().characters(0, &mut text);
        (self.replica.log().len(), count, text)
    }
}

fn spans(alloc: Global, of: Span) -> Result<Vec<Span>, Fault>
    ensures { IfOk result (λ spans. spans.items ≡ of ∷ []) }
{
    let mut spans = Vec::new(alloc);
    spans.push(of)?;
    Ok(spans)
}

fn delete(alloc: Global, of: Span) -> Result<Draft, Fault>
    ensures { IfOk result (λ draft. body_of draft ≡ Delete (of ∷ [])) }
{
    Ok(Draft::Delete {
        spans: spans(alloc, of)?,
    })
}

fn characters(alloc: Global, text: &[char]) -> Result<Text, Fault>
    ensures { IfOk result (λ of. of ≡ text.now) }
{
    Ok(Text::new(Vec::from_slice(alloc, text)?))
}

fn insert(alloc: Global, after: Stamp, text: &[char]) -> Result<Draft, Fault>
    ensures { IfOk result (λ draft. body_of draft ≡ Insert after [] text.now) }
{
    Ok(Draft::Insert {
        after,
        tags: Vec::new(alloc),
        text: characters(alloc, text)?,
    })
}

/// `ab`, and the `b` removed.
fn two(alloc: Global) -> Result<Vec<Draft>, Fault>
    ensures { IfOk result (λ drafts. map body_of drafts.items ≡ Insert (record { count = 0; site = 0 }) [] (97 ∷ 98 ∷ [])
        ∷ Delete (record { site = 1; first = 2; last = 2 } ∷ []) ∷ []) }
{
    let mut drafts = Vec::new(alloc);
    drafts.push(insert(alloc, ROOT, &['a', 'b'])?)?;
    let removed = Span {
        site: 1,
        first: 2,
        last: 2,
    };
    drafts.push(delete(alloc, removed)?)?;
    Ok(drafts)
}

// Both drafts on a new replica.
fn make_two(own: &mut Own) -> Result<Vec<Op>, Fault>
    requires log { own.old.replica.log ≡ [] }
    requires site { own.old.replica.site ≡ 1 }
{
    let drafts = two(own.alloc)?;
    Ok(own.replica.make(drafts)?.ops)
}

#[test]
fn operations_made(rt: HostRuntime) -> Result<(), Fail> {
    let mut own = Own::new(rt.alloc(), 3)?;
    let ops = make_two(&mut own)?;
    same_len(&rt, ops.len(), 2);
    let made = (ops[0].stamp(), ops[1].stamp(), ops[1].prev());
    same(
        &rt,
        made,
        (Stamp { count: 1, site: 1 }, Stamp { count: 3, site: 1 }, 2),
    );
    same(&rt, own.replica.log().len(), 2);
    let mut other = Own::new(rt.alloc(), 3)?;
    for op in ops {
        assert!(rt; matches!(other.replica.accept(op)?, Taken::New(_)));
    }
    same(&rt, other.replica.replica().store().visible(), 2);
    Ok(())
}

// Takes in the text `ab`, as an operation that the site made in an earlier run.
fn take_in(rt: &impl Abort, own: &mut Own) -> Result<(), Fault> {
    let stamp = Stamp { count: 1, site: 1 };
    let text = Vec::from_slice(own.alloc, &['a', 'b'])?;
    let op = Op::insert(stamp, 0, ROOT, Vec::new(own.alloc), text)?;
    assert!(rt; matches!(own.replica.accept(op)?, Taken::New(_)));
    Ok(())
}

// Stops a test where one character more isn't refused, or changes anything.
fn is_full(rt: &impl Abort, own: &mut Own, state: (usize, usize, [char; 4])) {
    same(rt, own.state(), state);
    same(rt, own.type_in_front().err(), Some(Fault::TextFull));
    same(rt, own.state(), state);
}

// Three cells fill a text whose limit they are: `a`, `b` and the final newline, also where the `b` is gone.
#[test]
fn a_full_text(rt: HostRuntime) -> Result<(), Fail> {
    let mut own = Own::new(rt.alloc(), 3)?;
    take_in(&rt, &mut own)?;
    is_full(&rt, &mut own, (1, 3, ['a', 'b', '\n', '-']));
    let mut other = Own::new(rt.alloc(), 3)?;
    make_two(&mut other)?;
    is_full(&rt, &mut other, (2, 2, ['a', '\n', '-', '-']));
    Ok(())
}

// A held operation that waits for one of the site's own is taken after that, and what it changes is told.
#[test]
fn a_held_one_is_told(rt: HostRuntime) -> Result<(), Fail> {
    let mut own = Own::new(rt.alloc(), 10)?;
    let stamp = Stamp { count: 5, site: 2 };
    let after = Stamp { count: 1, site: 1 };
    let text = Vec::from_slice(rt.alloc(), &['Y', 'Z'])?;
    let op = Op::insert(stamp, 0, after, Vec::new(rt.alloc()), text)?;
    assert!(&rt; matches!(own.replica.accept(op)?, Taken::Held));
    let made = own.made_in_front()?;
    same_len(&rt, made.changes.len(), 1);
    same(
        &rt,
        (made.changes[0].place, made.changes[0].inserted),
        (1, 2),
    );
    same(&rt, own.state(), (2, 4, ['a', 'Y', 'Z', '\n']));
    Ok(())
}
