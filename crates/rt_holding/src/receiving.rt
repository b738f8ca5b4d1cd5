// Files of operations that a site receives.
ghost use Rattle.std.specs.Prelude.{◌≡◌, ◌+◌, ◌<◌, ◌≤◌, None, length};
ghost use Rattle.rt_stamps.specs.declared.limits.TheConstants.{MOST_BYTES};
ghost use Rattle.rt_holding.specs.Grown.{AreTriedAt};
ghost use Rattle.rt_holding.specs.Receiving.{Receives, counts_as, none_accepted, one_more};

use crate::held::{Held, MOST_HELD, Offered};
use crate::taking::Taking;
use rt_ops::Records;
use rt_stamps::Fault;
use std::alloc::Global;

/// What became of a file that was received.
#[derive(Clone, Copy, Debug, PartialEq, Eq)]
pub struct Received {
    /// How many operations were accepted: those of the file that were new, and those that had been held.
    pub new: u64,
    /// How many of the file the site had already, or held already.
    pub repeats: u64,
    /// How many are held in the end.
    pub held: u64,
    /// Why not all of the file was received: the fault of the first operation that was refused, or else
    /// of the reading, with the offset of the record, in bytes from the file's beginning.
    pub fault: Option<(Fault, u64)>,
}

impl Received {
    // Before any operation is offered.
    fn nothing(held: &Held) -> Received
        ensures nothing { result ≡ none_accepted None held.now.held }
        ensures most { length held.now.held ≤ MOST_HELD }
    {
        Received {
            new: 0,
            repeats: 0,
            held: held.len() as u64,
            fault: None,
        }
    }

    // With one more that was offered.
    fn with(self, offered: Offered) -> Received
        requires { self.new + self.repeats + counts_as offered < u64.MAX }
        ensures counted { result ≡ one_more offered self }
    {
        match offered {
            Offered::New { more } => Received {
                new: self.new + 1 + more as u64,
                ..self
            },
            Offered::Repeat => Received {
                repeats: self.repeats + 1,
                ..self
            },
            Offered::Held => self,
        }
    }

    // At the end, or at the first fault, with those that are held then.
    fn ended(self, fault: Option<(Fault, u64)>, held: &Held) -> Received
        ensures ended { result ≡ record self { held = length held.now.held; fault = fault } }
    {
        Received {
            held: held.len() as u64,
            fault,
            ..self
        }
    }
}

/// Receives the bytes of a file of operations: each of its records is read, and its operation offered to the site before
/// the next is read. What comes too early is held, and taken when it can be. The first that is refused ends it, with its
/// fault: `BadStamp`, `Conflict`, `BadTarget`, `TextFull`, `WaitingFull`; so does the first fault of the reading:
/// `BadMagic`, `BadVersion`, `Truncated`, `BadRecord`. `NoMemory` has the offset of the record for which memory was wanting,
/// when it was read, or when its operation was taken or held. All before it stays accepted or held.
pub fn receive<T: Taking>(alloc: Global, site: &mut T, held: &mut Held, bytes: &[u8]) -> Received
    requires bytes { length bytes.now ≤ MOST_BYTES }
    requires tried { AreTriedAt (T.limit site.old) (T.log site.old) held.old }
    ensures receives { Receives T.log T.limit T.after bytes.now (record { site = site.old; held = held.old.held })
        result (record { site = site.new; held = held.new.held }) }
    ensures tried { AreTriedAt (T.limit site.new) (T.log site.new) held.new }
{
    let mut received = Received::nothing(held);
    let mut records = match Records::begin(bytes) {
        Ok(records) => records,
        Err(fault) => return received.ended(Some((fault, 0)), held),
    };
    'records: loop {
        let offset = records.offset();
        let op = match records.next(alloc) {
            Ok(Some(op)) => op,
            Ok(None) => break 'records,
            Err(fault) => return received.ended(Some((fault, offset)), held),
        };
        match held.offer(site, op) {
            Ok(offered) => received = received.with(offered),
            Err(refused) => return received.ended(Some((refused, offset)), held),
        }
    }
    received.ended(None, held)
}
