//! Pages of votes.
ghost use Rattle.std.specs.Prelude.{◌≡◌, IfOk};
ghost use Rattle.std.specs.List.{AllByRecursion};
ghost use Rattle.vote_state.specs.Valid.{IsVoted};
ghost use Rattle.plain_model.specs.Pages.{left_out};
ghost use Rattle.protocol.specs.Acceptor.{votes_page, page_end};

use frames::vote_size;
use mrp_types::{END, Inst, Memory, Voted, Votes};
use std::alloc::Global;

/// How many bytes the votes of a page may take.
const PAGE_ROOM: usize = 24_576;

/// The longest front of the votes that has room in a page, and where what it leaves out begins.
pub fn page_of(alloc: Global, votes: &[Voted]) -> Result<(Votes, Inst), Memory>
    requires { AllByRecursion IsVoted votes.now }
    ensures votes { IfOk result (λ page. page.0 ≡ votes_page votes.now) }
    ensures end { IfOk result (λ page. page.1 ≡ page_end (left_out (votes_page votes.now) votes.now)) }
{
    let mut page = Votes::new(alloc);
    let mut room = PAGE_ROOM;
    for vote in votes {
        let size = vote_size(vote);
        if room < size {
            return Ok((page, vote.lo));
        }
        room -= size;
        page.push(vote.share()?)?;
    }
    Ok((page, END))
}
