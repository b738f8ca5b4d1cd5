// What a site finds in its text.
ghost use Rattle.std.specs.Prelude.{map};
ghost use Rattle.rt_stamps.specs.Outcomes.{Answers};
ghost use Rattle.rt_stamps.specs.Places.{text_of_position};
ghost use Rattle.rt_tagcmd.specs.SearchCommand.{searched};
ghost use Rattle.rt_peers.specs.ViewStep.{told_step};

use crate::replies::positions_reply;
use crate::reply::Reply;
use rt_requests::SearchRequest;
use rt_stamps::Fault;
use rt_text::ViewRef;
use rt_tree::TreeStore;
use std::alloc::Global;

// Where a pattern stands.
pub(crate) fn search(
    alloc: Global,
    view: &ViewRef<'_, TreeStore>,
    request: &SearchRequest<'_>,
) -> Result<Reply, Fault>
    ensures { Answers (told_step (map text_of_position) view.now (searched view.now request.now)) view.now result view.now }
{
    let positions = rt_tagcmd::search(alloc, view, request)?;
    positions_reply(alloc, &positions)
}
