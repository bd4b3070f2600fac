// Everybody and everything in a rehearsal.
use crate::joint::{Item, Joint};
use crate::player::Player;
use crate::progress::Progress;
use crate::types::{Happening, Trouble};
use schedule::Terms;
use std::alloc::Global;
use std::collections::VecDeque;

// Something that a node sent to the register for an account, and the tick at which it comes in.
#[derive(Clone, Copy)]
pub(crate) struct Arrival {
    pub(crate) due: u64,
    pub(crate) account: usize,
    pub(crate) item: Item,
}

// All but the nodes. `at_once` says that what nodes send to the register comes in at once, and not as late as it may.
#[derive(Drop)]
pub(crate) struct Scene {
    pub(crate) heap: Global,
    pub(crate) terms: Terms,
    pub(crate) at_once: bool,
    pub(crate) accounts: Vec<Joint>,
    pub(crate) arrivals: VecDeque<Arrival>,
    pub(crate) progress: Progress,
}

#[derive(Drop)]
pub(crate) struct World {
    pub(crate) players: Vec<Player>,
    pub(crate) scene: Scene,
}

// A number that no account of a node has: it has 16 at most, counted from 0.
const NO_ACCOUNT: u8 = 16;

// The node of a party.
pub(crate) fn player_in(players: &mut [Player], party: usize) -> Option<&mut Player> {
    players.iter_mut().find(|player| player.party == party)
}

// The account that a party knows by a number.
pub(crate) fn numbered(accounts: &mut [Joint], party: usize, number: usize) -> Option<&mut Joint> {
    accounts.iter_mut().find(|joint| {
        joint
            .number_for(party)
            .is_some_and(|own| usize::from(own) == number)
    })
}

impl World {
    pub(crate) fn note(&mut self, what: Happening) -> Result<(), Trouble> {
        self.scene.progress.note(what)
    }

    // The node of a party.
    pub(crate) fn player(&self, party: usize) -> Option<&Player> {
        self.players.iter().find(|player| player.party == party)
    }

    pub(crate) fn player_mut(&mut self, party: usize) -> Option<&mut Player> {
        player_in(self.players.as_mut_slice(), party)
    }

    // The account of two parties.
    pub(crate) fn account_of(&mut self, a: usize, b: usize) -> Option<&mut Joint> {
        self.scene
            .accounts
            .iter_mut()
            .find(|joint| joint.is_between(a, b))
    }

    // A node's own number for its account with another; a number that is no account's where it has none, so that it is the node
    // that refuses what is asked or told of it.
    pub(crate) fn number_of(&self, node: usize, other: usize) -> u8 {
        self.scene
            .accounts
            .iter()
            .find(|joint| joint.is_between(node, other))
            .and_then(|joint| joint.number_for(node))
            .unwrap_or(NO_ACCOUNT)
    }
}
