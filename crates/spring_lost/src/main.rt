// Draws the spring in which the one in the middle lost money, as an SVG document: what a node did that takes back a promise too early.
// No such node stands in this repository, so what happened is a table here; `rehearse --picture` draws what the real node does.
#![tactic(auto)]

use picture::{Lane, Mark, Picture, Row, Total, draw};
use std::alloc::{AllocError, Global};
use std::io::Write;

const TITLE: &str =
    "The spring in which money was lost: a node that takes back a promise too early";

const MILL: usize = 0;

const BAKER: usize = 1;

const SMITH: usize = 2;

const REGISTER: usize = 3;

const NAMES: [&str; 4] = ["mill", "baker", "smith", "register"];

// A row of the table.
#[derive(Clone, Copy)]
struct Entry {
    tick: u32,
    mark: Mark,
    text: &'static str,
}

fn arrow(tick: u32, from: usize, to: usize, text: &'static str) -> Entry {
    Entry {
        tick,
        mark: Mark::Arrow { from, to },
        text,
    }
}

fn note(tick: u32, lane: usize, text: &'static str) -> Entry {
    Entry {
        tick,
        mark: Mark::Note { lane },
        text,
    }
}

// A payment of 5 is offered, passed on, and given back before the smith has signed that it is gone.
fn promises() -> [Entry; 11] {
    [
        arrow(0, MILL, BAKER, "offers 5, key 1, end 300"),
        arrow(0, BAKER, MILL, "signature under sheet 1"),
        note(0, BAKER, "owner: pass on 5, key 1, end 190, to smith"),
        arrow(0, BAKER, SMITH, "signed sheet 1"),
        arrow(0, SMITH, BAKER, "signs"),
        arrow(0, SMITH, BAKER, "returns key 1, unsigned"),
        arrow(0, BAKER, SMITH, "signature under sheet 2"),
        note(0, BAKER, "owner: give up key 1 of mill"),
        note(0, BAKER, "takes it: sheet 1 with the smith may still count"),
        arrow(0, BAKER, MILL, "signed sheet 2"),
        arrow(0, MILL, BAKER, "signs"),
    ]
}

// The smith shows the sheet before, with the key.
fn dispute() -> [Entry; 7] {
    let begins = Mark::BarBegins {
        lane: REGISTER,
        bar: 0,
    };
    let ends = Mark::BarEnds {
        lane: REGISTER,
        bar: 0,
    };
    let key = Mark::Key { lane: REGISTER };
    let learns = Mark::Key { lane: BAKER };
    [
        arrow(150, SMITH, REGISTER, "shows sheet 1"),
        Entry {
            tick: 150,
            mark: begins,
            text: "baker and smith: dispute, sheet 1, until 200",
        },
        arrow(150, SMITH, REGISTER, "shows key 1"),
        Entry {
            tick: 150,
            mark: key,
            text: "baker and smith: key 1",
        },
        Entry {
            tick: 156,
            mark: learns,
            text: "learns key 1: it opens nothing with the mill any more",
        },
        Entry {
            tick: 200,
            mark: ends,
            text: "baker and smith: ended, sheet 1",
        },
        note(200, REGISTER, "5 to the smith, by key 1"),
    ]
}

fn add_rows(heap: Global, rows: &mut Vec<Row>, entries: &[Entry]) -> Result<(), AllocError> {
    for entry in entries {
        let row = Row {
            tick: entry.tick,
            mark: entry.mark,
            refused: false,
            text: Vec::from_slice(heap, entry.text.as_bytes())?,
        };
        rows.push(row)?;
    }
    Ok(())
}

// The baker put in 10 with each, and comes out with 10 of the mill's account and 5 of the smith's.
fn total_of(lane: usize) -> Option<Total> {
    if lane != BAKER {
        return None;
    }
    Some(Total {
        put_in: 20,
        came_out: Some(15),
    })
}

fn lanes(heap: Global) -> Result<Vec<Lane>, AllocError> {
    let mut lanes = Vec::new(heap);
    for (at, name) in NAMES.iter().enumerate() {
        let lane = Lane {
            name: Vec::from_slice(heap, name.as_bytes())?,
            total: total_of(at),
        };
        lanes.push(lane)?;
    }
    Ok(lanes)
}

fn spring(heap: Global) -> Result<Vec<u8>, AllocError> {
    let mut rows = Vec::new(heap);
    add_rows(heap, &mut rows, &promises())?;
    add_rows(heap, &mut rows, &dispute())?;
    let picture = Picture {
        title: Vec::from_slice(heap, TITLE.as_bytes())?,
        lanes: lanes(heap)?,
        rows,
    };
    draw(heap, &picture)
}

fn main(rt: HostRuntime) -> anyhow::Result<()> {
    let svg = spring(rt.alloc())?;
    rt.stdout().write_all(svg.as_slice())?;
    Ok(())
}
