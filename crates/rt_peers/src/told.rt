// What a site tells of what it changed.
use crate::reply::Reply;
use rt_changes::ToldChange;
use rt_holding::Received;
use rt_stamps::Fault;

/// What became of a file that was received, and what changed in the visible text.
#[derive(Drop)]
pub struct ReceivedChanges {
    /// As `receive` answers. Telling takes memory too: where it is wanting for an operation of the file, this ends with
    /// `NoMemory`; a held one stays held, which no fault tells.
    pub received: Received,
    /// What changed, by operations that were accepted, in an order in which they could be taken; each change is of the text that
    /// those before it left. Their places are those of the whole text, whichever lines a widget shows.
    pub changes: Vec<ToldChange>,
}

/// What is answered to a request, and what changed in the visible text.
#[derive(Drop)]
pub struct ToldAnswer {
    /// As `answer` and `command` answer.
    pub reply: Result<Reply, Fault>,
    /// What changed, by the operations that were made and the held ones that were taken, in an order in which they could be;
    /// each change is of the text that those before it left. Their places are those of the whole text, whichever lines a widget
    /// shows. An empty list where no operation was accepted. `None` where it isn't known what the accepted ones changed,
    /// for want of memory, which no fault tells. The text is then to be read anew.
    pub changes: Option<Vec<ToldChange>>,
}
