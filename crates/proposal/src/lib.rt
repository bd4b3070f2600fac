// Which change a proposed sheet is: a neighbour's offer, its return of an out, or its paying of an in.
// Promises: the answer is the one that specs/Proposals.antt defines, and None says that no such change gives the
// proposed sheet. Leans on refusal, sheet and change.
#![tactic(auto)]

ghost use Rattle.std.specs.Prelude.{◌≡◌};
ghost use Rattle.sheet.specs.Contents.{content_of};
ghost use Rattle.proposal.specs.Proposals.{proposal_of};
ghost use Rattle.proposal.specs.Recognised.{RecognisedIsMeant, NoneOverlooked};

use crate::offers::offered;
use crate::removals::removal;
use change::Change;
use sheet::Sheet;

mod offers;
mod removals;
mod types;

pub use types::Proposal;

// The change that makes the proposed sheet of the held one: an offer, an out that is back in own, or an in that is
// now own. Both are in the view of whoever is asked.
pub fn recognise(held: &Sheet, proposed: &Sheet) -> Option<Proposal>
    ensures { result ≡ proposal_of (content_of held.now) (content_of proposed.now) }
{
    let (ins, outs) = (proposed.ins(), proposed.outs());
    offered(held, proposed)
        .or_else(|| removal(held, proposed, Change::Returned, held.outs(), outs))
        .or_else(|| removal(held, proposed, Change::Getting, held.ins(), ins))
}

// The theorem that what is recognised is meant, and that a sheet which one of the three changes gives is recognised.
pub fn recognised_stands()
    ensures meant { RecognisedIsMeant }
    ensures complete { NoneOverlooked }
{}
