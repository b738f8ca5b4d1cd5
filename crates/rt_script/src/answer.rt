// What a line of a script is answered.
use rt_peers::{Received, Reply};
use rt_stamps::Fault;

/// What a line is answered: the words of a reply, why it was refused, or what became of a file.
#[derive(Drop)]
pub enum Answer {
    Replied(Reply),
    Refused(Fault),
    Received(Received),
}

impl Answer {
    ghost use Rattle.std.specs.Prelude.{◌≡◌};
    ghost use Rattle.rt_script.specs.Replies.{fault_number};

    /// The number of the fault by which a line was refused, 0 where it was not.
    pub fn fault_number(&self) -> u8
        ensures { result ≡ fault_number self.now }
    {
        match self {
            Answer::Refused(fault) => fault.number(),
            _ => 0,
        }
    }
}

impl From<Result<Reply, Fault>> for Answer {
    ghost use Rattle.std.specs.Prelude.{◌≡◌, MatchResult};
    ghost use Rattle.rt_script.specs.declared.answer.Answer.TheVariants.{Replied, Refused};

    ghost from_gives = { λ outcome answer. MatchResult outcome (λ reply. answer ≡ Replied reply) (λ fault. answer ≡ Refused fault) };

    fn from(outcome: Result<Reply, Fault>) -> Self {
        match outcome {
            Ok(reply) => Answer::Replied(reply),
            Err(fault) => Answer::Refused(fault),
        }
    }
}
