// Numbers that C is told.
ghost use Rattle.std.specs.Prelude.{◌≡◌};
ghost use Rattle.peertext_c.specs.Calls.{received_numbers};

use rt_script::Received;

/// What became of a file that was received.
#[repr(C)]
#[derive(Clone, Copy)]
pub struct ReceivedNumbers {
    /// How many operations were accepted, of the file and of those that had been held: as many as `pt_changes` counts then.
    pub fresh: u64,
    /// How many of the file's operations the site had or held already.
    pub repeats: u64,
    /// How many operations the site holds in the end: they came before what they were made upon, or memory was wanting
    /// when they were tried.
    pub held: u64,
    /// The offset of the fault's record in the file, in bytes; 0 without a fault.
    pub offset: u64,
    /// The number of the fault that ended the file early, or 0. None tells that memory was wanting for a held
    /// operation.
    pub fault: u8,
}

/// The stamp of a character: a count and the number of a site.
#[repr(C)]
#[derive(Clone, Copy)]
pub struct StampNumbers {
    pub count: u64,
    pub site: u32,
}

impl ReceivedNumbers {
    /// Of a file.
    pub(crate) fn of(received: Received) -> ReceivedNumbers
        ensures { result ≡ received_numbers received }
    {
        let told = ReceivedNumbers {
            fresh: received.new,
            repeats: received.repeats,
            held: received.held,
            offset: 0,
            fault: 0,
        };
        match received.fault {
            Some((fault, offset)) => ReceivedNumbers {
                offset,
                fault: fault.number(),
                ..told
            },
            None => told,
        }
    }
}
