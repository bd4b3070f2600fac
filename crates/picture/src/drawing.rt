// The drawing: a line downwards for each party, and a row for each thing that happens.
use crate::layout::{Layout, text_width, word_before};
use crate::shapes::{Canvas, Place};
use crate::types::{Lane, Mark, Picture, Row, Total};
use std::alloc::{AllocError, Global};

const LEGEND: &[u8] =
    b"Time goes downwards, a row for each event; ticks at the left. Arrow: message, signature or what is shown. Diamond: key. Bar: dispute. Red: refused, or lost.";

const PLAIN: &str = "fill=\"#222222\"";

const CENTRED: &str = "fill=\"#222222\" text-anchor=\"middle\"";

const RED: &str = "fill=\"#b00020\"";

const RED_CENTRED: &str = "fill=\"#b00020\" text-anchor=\"middle\"";

const GROUND: &str = "fill=\"#ffffff\"";

// The ground, the title, and what the signs mean. Here and below the canvas is written and the layout read: a struct of both
// would be taken apart in each function.
fn put_head(canvas: &mut Canvas, picture: &Picture, layout: &Layout) -> Result<(), AllocError> {
    canvas.open(layout.width, layout.height)?;
    canvas.put("<title>")?;
    canvas.put_escaped(picture.title.as_slice())?;
    canvas.put("</title>\n")?;
    let corner = Place { x: 0, y: 0 };
    canvas.rectangle(corner, layout.width, layout.height, GROUND)?;
    let title = "class=\"title\" font-size=\"16\" fill=\"#222222\"";
    canvas.text(Place { x: 20, y: 28 }, title, "", picture.title.as_slice())?;
    let legend = "font-size=\"11\" fill=\"#666666\"";
    canvas.text(Place { x: 20, y: 48 }, legend, "", LEGEND)
}

// A lane with its name on top.
fn put_lane(
    canvas: &mut Canvas,
    layout: &Layout,
    at: usize,
    lane: &Lane,
) -> Result<(), AllocError> {
    let top = layout.top();
    let from = layout.in_lane(at, top.saturating_add(26));
    let to = layout.in_lane(at, layout.bottom());
    canvas.line(
        from,
        to,
        "class=\"lane\" stroke=\"#999999\" stroke-width=\"1\"",
    )?;
    let corner = Place {
        x: from.x.saturating_sub(60),
        y: top,
    };
    let style = "rx=\"4\" fill=\"#eef3f8\" stroke=\"#5b7a99\"";
    canvas.rectangle(corner, 120, 26, style)?;
    let name = layout.in_lane(at, top.saturating_add(18));
    let style = "fill=\"#222222\" text-anchor=\"middle\" font-weight=\"bold\"";
    canvas.text(name, style, "", lane.name.as_slice())
}

fn put_lanes(canvas: &mut Canvas, layout: &Layout, lanes: &[Lane]) -> Result<(), AllocError> {
    for (at, lane) in lanes.iter().enumerate() {
        put_lane(canvas, layout, at, lane)?;
    }
    Ok(())
}

fn put_tick(canvas: &mut Canvas, layout: &Layout, at: usize, tick: u32) -> Result<(), AllocError> {
    let y = layout.row_y(at);
    let above = y.saturating_sub(20);
    let from = Place { x: 20, y: above };
    let to = Place {
        x: layout.width.saturating_sub(20),
        y: above,
    };
    canvas.line(from, to, "stroke=\"#e4e4e4\" stroke-width=\"1\"")?;
    let style = "class=\"tick\" fill=\"#666666\"";
    canvas.count(Place { x: 20, y }, style, "tick ", u64::from(tick))
}

// The tick of each row that has another than the row above.
fn put_ticks(canvas: &mut Canvas, layout: &Layout, rows: &[Row]) -> Result<(), AllocError> {
    let mut last = None;
    for (at, row) in rows.iter().enumerate() {
        if last != Some(row.tick) {
            put_tick(canvas, layout, at, row.tick)?;
        }
        last = Some(row.tick);
    }
    Ok(())
}

fn ends_bar(row: &Row, lane: usize, bar: usize) -> bool {
    row.mark == Mark::BarEnds { lane, bar }
}

// The row in which a bar that begins in a row ends, or how many rows there are.
fn end_of_bar(rows: &[Row], begins: usize, lane: usize, bar: usize) -> usize {
    rows.iter()
        .enumerate()
        .find(|(at, row)| begins < *at && ends_bar(row, lane, bar))
        .map_or(rows.len(), |(at, _)| at)
}

fn put_bars(canvas: &mut Canvas, layout: &Layout, rows: &[Row]) -> Result<(), AllocError> {
    for (at, row) in rows.iter().enumerate() {
        if let Mark::BarBegins { lane, bar } = row.mark {
            let top = layout.row_y(at).saturating_sub(6);
            let end = layout.row_y(end_of_bar(rows, at, lane, bar));
            let corner = Place {
                x: layout.bar_x(lane, bar),
                y: top,
            };
            let style = "class=\"bar\" fill=\"#e3d3f0\" stroke=\"#7b3fa0\"";
            canvas.rectangle(corner, 12, end.saturating_sub(top), style)?;
        }
    }
    Ok(())
}

// An arrow with its text above it.
fn put_arrow(
    canvas: &mut Canvas,
    layout: &Layout,
    row: &Row,
    y: u64,
    from: usize,
    to: usize,
) -> Result<(), AllocError> {
    let width = text_width(row);
    let middle = layout.between(from, to);
    let corner = Place {
        x: middle.saturating_sub(width / 2),
        y: y.saturating_sub(16),
    };
    canvas.rectangle(corner, width, 13, GROUND)?;
    let line = if row.refused {
        "class=\"arrow refused\" stroke=\"#b00020\" stroke-width=\"2\" stroke-dasharray=\"6 3\""
    } else {
        "class=\"arrow\" stroke=\"#1f4e79\" stroke-width=\"2\""
    };
    canvas.line(layout.in_lane(from, y), layout.in_lane(to, y), line)?;
    let turns = if from < to {
        "l-10 -5 v10"
    } else {
        "l10 -5 v10"
    };
    let head = if row.refused { RED } else { "fill=\"#1f4e79\"" };
    canvas.shape(layout.in_lane(to, y), turns, head)?;
    let place = Place {
        x: middle,
        y: y.saturating_sub(5),
    };
    let style = if row.refused { RED_CENTRED } else { CENTRED };
    canvas.text(place, style, word_before(row), row.text.as_slice())
}

// The sign of a mark in its lane.
fn put_sign(canvas: &mut Canvas, row: &Row, at: Place) -> Result<(), AllocError> {
    match row.mark {
        Mark::Key { .. } => {
            let style = "class=\"key\" fill=\"#f2c230\" stroke=\"#8a6500\"";
            canvas.shape(at, "m0 -7 l7 7 l-7 7 l-7 -7", style)
        }
        Mark::Stop { .. } => {
            let style = "class=\"stop\" fill=\"#333333\"";
            canvas.shape(at, "m-6 -6 h12 v12 h-12", style)
        }
        Mark::Start { .. } => {
            let style = "class=\"start\" fill=\"#2e7d32\"";
            canvas.shape(at, "m-5 -7 l12 7 l-12 7", style)
        }
        Mark::Note { .. } if row.refused => {
            let style =
                "class=\"note refused\" fill=\"none\" stroke=\"#b00020\" stroke-width=\"2\"";
            canvas.shape(at, "m-5 -5 l10 10 l-5 -5 l5 -5 l-10 10 l5 -5", style)
        }
        Mark::Note { .. } => {
            let style = "class=\"note\" fill=\"#1f4e79\"";
            canvas.shape(at, "m-4 0 a4 4 0 1 0 8 0 a4 4 0 1 0 -8 0", style)
        }
        Mark::Arrow { .. } | Mark::BarBegins { .. } | Mark::BarEnds { .. } => Ok(()),
    }
}

// A text from a place on, with the sign that it is for.
fn put_beside(canvas: &mut Canvas, row: &Row, sign: Place, x: u64) -> Result<(), AllocError> {
    let corner = Place {
        x: x.saturating_add(8),
        y: sign.y.saturating_sub(9),
    };
    canvas.rectangle(corner, text_width(row).saturating_add(4), 16, GROUND)?;
    put_sign(canvas, row, sign)?;
    let place = Place {
        x: x.saturating_add(12),
        y: sign.y.saturating_add(4),
    };
    let style = if row.refused { RED } else { PLAIN };
    canvas.text(place, style, word_before(row), row.text.as_slice())
}

fn put_row(canvas: &mut Canvas, layout: &Layout, at: usize, row: &Row) -> Result<(), AllocError> {
    let y = layout.row_y(at);
    match row.mark {
        Mark::Arrow { from, to } => put_arrow(canvas, layout, row, y, from, to),
        Mark::Note { lane }
        | Mark::Key { lane }
        | Mark::Stop { lane }
        | Mark::Start { lane }
        | Mark::BarBegins { lane, .. }
        | Mark::BarEnds { lane, .. } => {
            let sign = layout.in_lane(lane, y);
            put_beside(canvas, row, sign, layout.beside_lane(lane))
        }
    }
}

// As put_lanes goes over lanes: by a closure for the one the two would be no shorter.
fn put_rows(canvas: &mut Canvas, layout: &Layout, rows: &[Row]) -> Result<(), AllocError> {
    for (at, row) in rows.iter().enumerate() {
        put_row(canvas, layout, at, row)?;
    }
    Ok(())
}

// What a party put in and came out with, below its lane.
fn put_total(
    canvas: &mut Canvas,
    layout: &Layout,
    at: usize,
    total: &Total,
) -> Result<(), AllocError> {
    let first = layout.in_lane(at, layout.bottom().saturating_add(20));
    let second = layout.in_lane(at, layout.bottom().saturating_add(36));
    let third = layout.in_lane(at, layout.bottom().saturating_add(52));
    canvas.count(first, CENTRED, "put in ", total.put_in)?;
    match total.came_out {
        None => canvas.text(second, CENTRED, "not settled", b""),
        Some(came_out) if came_out < total.put_in => {
            canvas.count(second, RED_CENTRED, "came out with ", came_out)?;
            canvas.count(third, RED_CENTRED, "lost ", total.put_in - came_out)
        }
        Some(came_out) => canvas.count(second, CENTRED, "came out with ", came_out),
    }
}

fn put_totals(canvas: &mut Canvas, layout: &Layout, lanes: &[Lane]) -> Result<(), AllocError> {
    for (at, lane) in lanes.iter().enumerate() {
        if let Some(total) = lane.total {
            put_total(canvas, layout, at, &total)?;
        }
    }
    Ok(())
}

// The drawing as an SVG document.
pub fn draw(heap: Global, picture: &Picture) -> Result<Vec<u8>, AllocError> {
    let layout = Layout::of(picture);
    let lanes = picture.lanes.as_slice();
    let rows = picture.rows.as_slice();
    let mut canvas = Canvas::new(heap);
    put_head(&mut canvas, picture, &layout)?;
    put_ticks(&mut canvas, &layout, rows)?;
    put_lanes(&mut canvas, &layout, lanes)?;
    put_bars(&mut canvas, &layout, rows)?;
    put_rows(&mut canvas, &layout, rows)?;
    put_totals(&mut canvas, &layout, lanes)?;
    canvas.put("</svg>\n")?;
    Ok(canvas.finish())
}
