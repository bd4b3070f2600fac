// Where everything stands, in pixels. Sums and products stop at the largest number, so that any drawing has its places.
use crate::shapes::Place;
use crate::types::{Mark, Picture, Row};

// How wide a letter of the title and two letters of all else are taken to be.
const TITLE_LETTER: u64 = 9;

const TWO_LETTERS: u64 = 13;

// The ticks stand left of the first lane's middle.
const LEFT: u64 = 160;

const NAMES: u64 = 64;

const FIRST_ROW: u64 = 128;

const ROW: u64 = 30;

const BAR: u64 = 16;

// Below the lanes stands what each party put in and came out with.
const FOOT: u64 = 72;

// `lane` is the distance of two lanes, `rows` how many rows there are. In `bars_lane`, the lane of the first bar, `bars` of them
// stand side by side.
#[derive(Clone, Copy)]
pub(crate) struct Layout {
    pub(crate) width: u64,
    pub(crate) height: u64,
    lane: u64,
    rows: u64,
    bars: u64,
    bars_lane: Option<usize>,
}

// The word that stands before the text of what was refused.
pub(crate) fn word_before(row: &Row) -> &'static str {
    if row.refused { "refused: " } else { "" }
}

// How wide a text with the word before it is.
pub(crate) fn text_width(row: &Row) -> u64 {
    let count = row.text.len() as u64;
    let words = word_before(row).len() as u64;
    count.saturating_add(words).saturating_mul(TWO_LETTERS) / 2
}

// How far apart two lanes have to be for the text of a row.
fn lane_wanted(row: &Row) -> u64 {
    let Mark::Arrow { from, to } = row.mark else {
        return 0;
    };
    let apart = from.abs_diff(to) as u64;
    text_width(row).saturating_add(36) / apart.max(1)
}

fn lane_distance(rows: &[Row]) -> u64 {
    rows.iter()
        .map(|row| lane_wanted(row))
        .max()
        .unwrap_or(0)
        .clamp(150, 360)
}

fn lane_of_bars(rows: &[Row]) -> Option<usize> {
    rows.iter().find_map(|row| match row.mark {
        Mark::BarBegins { lane, .. } => Some(lane),
        _ => None,
    })
}

fn bars_wanted(row: &Row) -> u64 {
    match row.mark {
        Mark::BarBegins { bar, .. } => (bar as u64).saturating_add(1),
        _ => 0,
    }
}

fn bar_count(rows: &[Row]) -> u64 {
    rows.iter().map(|row| bars_wanted(row)).max().unwrap_or(0)
}

impl Layout {
    pub(crate) fn of(picture: &Picture) -> Layout {
        let rows = picture.rows.as_slice();
        let mut layout = Layout {
            width: 0,
            height: 0,
            lane: lane_distance(rows),
            rows: rows.len() as u64,
            bars: bar_count(rows),
            bars_lane: lane_of_bars(rows),
        };
        let title = (picture.title.len() as u64).saturating_mul(TITLE_LETTER);
        let lanes = layout.lane_x(picture.lanes.len());
        let texts = layout.right_of_texts(rows);
        layout.width = title.saturating_add(40).max(lanes).max(texts).max(720);
        layout.height = layout.bottom().saturating_add(FOOT);
        layout
    }

    // The right end of the texts.
    fn right_of_texts(&self, rows: &[Row]) -> u64 {
        rows.iter().map(|row| self.right_of(row)).max().unwrap_or(0)
    }

    fn right_of(&self, row: &Row) -> u64 {
        let wide = text_width(row).saturating_add(24);
        match row.mark {
            Mark::Arrow { from, to } => self.between(from, to).saturating_add(wide / 2),
            Mark::Note { lane }
            | Mark::Key { lane }
            | Mark::Stop { lane }
            | Mark::Start { lane }
            | Mark::BarBegins { lane, .. }
            | Mark::BarEnds { lane, .. } => self.beside_lane(lane).saturating_add(wide),
        }
    }

    // The middle of a lane.
    pub(crate) fn lane_x(&self, lane: usize) -> u64 {
        (lane as u64).saturating_mul(self.lane).saturating_add(LEFT)
    }

    // The middle between two lanes.
    pub(crate) fn between(&self, one: usize, other: usize) -> u64 {
        self.lane_x(one) / 2 + self.lane_x(other) / 2
    }

    // The left side of a bar.
    pub(crate) fn bar_x(&self, lane: usize, bar: usize) -> u64 {
        let side = (bar as u64).saturating_mul(BAR);
        self.lane_x(lane).saturating_add(side).saturating_sub(6)
    }

    // Where a text beside a lane and its bars begins.
    pub(crate) fn beside_lane(&self, lane: usize) -> u64 {
        let x = self.lane_x(lane);
        if self.bars_lane == Some(lane) {
            return x.saturating_add(self.bars.saturating_mul(BAR).saturating_sub(8));
        }
        x
    }

    pub(crate) fn row_y(&self, row: usize) -> u64 {
        (row as u64).saturating_mul(ROW).saturating_add(FIRST_ROW)
    }

    // The top of the names, and the end of the lanes.
    pub(crate) fn top(&self) -> u64 {
        NAMES
    }

    pub(crate) fn bottom(&self) -> u64 {
        self.rows.saturating_mul(ROW).saturating_add(FIRST_ROW)
    }

    pub(crate) fn in_lane(&self, lane: usize, y: u64) -> Place {
        Place {
            x: self.lane_x(lane),
            y,
        }
    }
}
