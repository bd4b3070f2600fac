// What happens, as a drawing: a lane for each party and one for the register, and a row for each event that is worth one.
use crate::cast::Cast;
use crate::lanes::Lanes;
use crate::sketch::Artist;
use picture::{Lane, Picture, Row, Total, draw};
use stage::{Event, Happening, Outcome};
use std::alloc::AllocError;

// What a party put in and came out with, where it is a node.
fn total_of(events: &[Event], party: usize) -> Option<Total> {
    events.iter().find_map(|event| match event.what {
        Happening::Outcome(
            Outcome::Total {
                node,
                put_in,
                came_out,
                settled,
            },
        ) if node == party => Some(Total {
            put_in,
            came_out: settled.then_some(came_out),
        }),
        _ => None,
    })
}

impl Artist<'_> {
    fn rows(&self) -> Result<Vec<Row>, AllocError> {
        let mut rows = Vec::new(self.cast.heap);
        for event in self.events {
            if let Some(sketch) = self.sketch(&event.what)? {
                rows.push(Row {
                    tick: event.tick,
                    mark: sketch.mark,
                    refused: sketch.refused,
                    text: sketch.text.into_bytes(),
                })?;
            }
        }
        Ok(rows)
    }

    fn lanes(&self) -> Result<Vec<Lane>, AllocError> {
        let heap = self.cast.heap;
        let mut lanes = Vec::new(heap);
        for party in self.lanes.order.iter() {
            let name = Vec::from_slice(heap, self.cast.party(*party).as_bytes())?;
            let total = total_of(self.events, *party);
            lanes.push(Lane { name, total })?;
        }
        lanes.push(Lane {
            name: Vec::from_slice(heap, b"register")?,
            total: None,
        })?;
        Ok(lanes)
    }
}

// The drawing of the rehearsal of a script, as an SVG document.
pub(crate) fn drawn(cast: &Cast, events: &[Event], path: &str) -> Result<Vec<u8>, AllocError> {
    let heap = cast.heap;
    let script = path.rsplit('/').next().unwrap_or(path);
    let artist = Artist {
        cast,
        events,
        lanes: Lanes::of(cast)?,
    };
    let picture = Picture {
        title: format!(in heap; "Rehearsal of {script}")?.into_bytes(),
        lanes: artist.lanes()?,
        rows: artist.rows()?,
    };
    draw(heap, &picture)
}
