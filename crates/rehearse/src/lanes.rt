// Who stands where in a drawing: a lane for each party, and one for the register on the right.
use crate::cast::Cast;
use picture::Mark;
use std::alloc::AllocError;

// The parties from left to right: nodes stand in the middle, and half of the others on either side.
#[derive(Drop)]
pub(crate) struct Lanes {
    pub(crate) order: Vec<usize>,
}

// The numbers of the parties of a kind.
fn parties_of(cast: &Cast, are_nodes: bool) -> Result<Vec<usize>, AllocError> {
    cast.script
        .parties
        .iter()
        .enumerate()
        .filter(|(_, party)| party.is_node == are_nodes)
        .map(|(at, _)| at)
        .collect(cast.heap)
}

impl Lanes {
    pub(crate) fn of(cast: &Cast) -> Result<Lanes, AllocError> {
        let others = parties_of(cast, false)?;
        let nodes = parties_of(cast, true)?;
        let (left, right) = others.as_slice().split_at(others.len() - others.len() / 2);
        let mut order = Vec::new(cast.heap);
        order.extend_from_slice(left)?;
        order.extend_from_slice(nodes.as_slice())?;
        order.extend_from_slice(right)?;
        Ok(Lanes { order })
    }

    pub(crate) fn of_party(&self, party: usize) -> usize {
        self.order
            .iter()
            .position(|other| *other == party)
            .unwrap_or(0)
    }

    pub(crate) fn of_register(&self) -> usize {
        self.order.len()
    }

    pub(crate) fn arrow(&self, from: usize, to: usize) -> Mark {
        Mark::Arrow {
            from: self.of_party(from),
            to: self.of_party(to),
        }
    }

    pub(crate) fn to_register(&self, from: usize) -> Mark {
        Mark::Arrow {
            from: self.of_party(from),
            to: self.of_register(),
        }
    }

    pub(crate) fn note(&self, party: usize) -> Mark {
        Mark::Note {
            lane: self.of_party(party),
        }
    }
}
