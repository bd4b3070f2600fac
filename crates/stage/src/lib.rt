// A rehearsal: up to four nodes that keep the rules, others that do what a script says, the register, and time.
// Promises: the nodes are the proved ones, and a script is played to its end or the trouble is told. Leans on script,
// register, looking, rules, plan, journal, replay and the crates below them.
#![tactic(auto)]

ghost use Rattle.std.specs.Prelude.{◌≡◌, [], IsNone, IsOkAnd};

use crate::joint::{End, Joint};
use crate::player::Player;
use crate::progress::Progress;
use crate::world::{Scene, World, player_in};
use register::Page;
use schedule::Terms;
use script::{Opening, Script};
use sheet::Sheet;
use std::alloc::Global;
use std::collections::VecDeque;

mod ending;
mod entries;
mod joint;
mod leaving;
mod others;
mod player;
mod playing;
mod progress;
mod raw;
mod time;
mod troubles;
mod turns;
mod types;
mod world;

pub use types::{
    Answer, Ending, Event, Happening, InRegister, Letter, OfNode, Outcome, Standing, Trouble,
};

fn players_of(heap: Global, script: &Script, terms: Terms) -> Result<Vec<Player>, Trouble> {
    let mut players = Vec::new(heap);
    for (party, who) in script.parties.iter().enumerate() {
        if who.is_node {
            players.push(Player::new(heap, party, terms)?)?;
        }
    }
    Ok(players)
}

// Opens a party's side of an account: by its own number for it, where it is a node.
fn open_end(
    heap: Global,
    players: &mut [Player],
    party: usize,
    put_in: u32,
    theirs: u32,
) -> Result<End, Trouble> {
    let number = match player_in(players, party) {
        Some(player) => Some(player.open(put_in, theirs)?),
        None => None,
    };
    let mut signed = Vec::new(heap);
    signed.push(Sheet::first(number.unwrap_or(0), put_in, theirs))?;
    Ok(End {
        party,
        number,
        put_in,
        signed,
    })
}

fn joint_of(
    heap: Global,
    players: &mut [Player],
    account: usize,
    opening: &Opening,
) -> Result<Joint, Trouble> {
    let own = opening.first_put_in;
    let theirs = opening.second_put_in;
    Ok(Joint {
        account,
        first: open_end(heap, players, opening.first, own, theirs)?,
        second: open_end(heap, players, opening.second, theirs, own)?,
        page: Page::new(heap),
    })
}

fn joints_of(
    heap: Global,
    players: &mut [Player],
    openings: &[Opening],
) -> Result<Vec<Joint>, Trouble> {
    let mut joints = Vec::new(heap);
    for (account, opening) in openings.iter().enumerate() {
        joints.push(joint_of(heap, players, account, opening)?)?;
    }
    Ok(joints)
}

fn world_of(heap: Global, script: &Script, terms: Terms) -> Result<World, Trouble> {
    let mut players = players_of(heap, script, terms)?;
    let accounts = joints_of(heap, players.as_mut_slice(), script.openings.as_slice())?;
    let scene = Scene {
        heap,
        terms,
        at_once: false,
        accounts,
        arrivals: VecDeque::new(heap),
        progress: Progress::new(heap),
    };
    Ok(World { players, scene })
}

// All that happens in a script, from the first look to what each node comes out with; nothing where it has no terms.
pub fn play(heap: Global, script: &Script) -> Result<Vec<Event>, Trouble>
    ensures { IsNone script.now.numbers → IsOkAnd result (λ events. events.items ≡ []) }
{
    let Some(numbers) = script.numbers else {
        return Ok(Vec::new(heap));
    };
    let mut world = world_of(heap, script, numbers.values())?;
    world.first_looks()?;
    for step in script.steps.iter() {
        world.play_step(step, script.raws.as_slice())?;
    }
    world.end_all()?;
    let World { scene, .. } = world;
    let Scene { progress, .. } = scene;
    Ok(progress.events)
}
