// The shapes of a drawing, each as one line of SVG.
use crate::escape::push_escaped;
use std::alloc::{AllocError, Global};

// A place in pixels, from the left and from the top.
#[derive(Clone, Copy)]
pub(crate) struct Place {
    pub(crate) x: u64,
    pub(crate) y: u64,
}

// What is drawn so far. The drawing's own words go in as they are; what comes from outside is escaped.
#[derive(Drop)]
pub(crate) struct Canvas {
    heap: Global,
    out: Vec<u8>,
}

impl Canvas {
    pub(crate) fn new(heap: Global) -> Canvas {
        Canvas {
            heap,
            out: Vec::new(heap),
        }
    }

    pub(crate) fn finish(self) -> Vec<u8> {
        self.out
    }

    pub(crate) fn put(&mut self, text: &str) -> Result<(), AllocError> {
        self.out.extend_from_slice(text.as_bytes())?;
        Ok(())
    }

    pub(crate) fn put_escaped(&mut self, text: &[u8]) -> Result<(), AllocError> {
        push_escaped(&mut self.out, text)
    }

    // The root of the document, and a light ground.
    pub(crate) fn open(&mut self, width: u64, height: u64) -> Result<(), AllocError> {
        let text = format!(in self.heap;
            "<svg xmlns=\"http://www.w3.org/2000/svg\" version=\"1.1\" viewBox=\"0 0 {width} {height}\" width=\"{width}\" height=\"{height}\" font-family=\"sans-serif\" font-size=\"12\">\n"
        )?;
        self.put("<?xml version=\"1.0\" encoding=\"UTF-8\"?>\n")?;
        self.put(text.as_str())
    }

    pub(crate) fn line(&mut self, from: Place, to: Place, style: &str) -> Result<(), AllocError> {
        let Place { x: x1, y: y1 } = from;
        let Place { x: x2, y: y2 } = to;
        let text = format!(in self.heap;
            "<line x1=\"{x1}\" y1=\"{y1}\" x2=\"{x2}\" y2=\"{y2}\" {style}/>\n"
        )?;
        self.put(text.as_str())
    }

    // A rectangle from its upper left corner.
    pub(crate) fn rectangle(
        &mut self,
        at: Place,
        width: u64,
        height: u64,
        style: &str,
    ) -> Result<(), AllocError> {
        let Place { x, y } = at;
        let text = format!(in self.heap;
            "<rect x=\"{x}\" y=\"{y}\" width=\"{width}\" height=\"{height}\" {style}/>\n"
        )?;
        self.put(text.as_str())
    }

    // A filled shape whose outline, `turns`, is given from a place on.
    pub(crate) fn shape(&mut self, at: Place, turns: &str, style: &str) -> Result<(), AllocError> {
        let Place { x, y } = at;
        let text = format!(in self.heap; "<path d=\"M{x} {y} {turns} z\" {style}/>\n")?;
        self.put(text.as_str())
    }

    // Words of the drawing itself, and then a text that is escaped.
    pub(crate) fn text(
        &mut self,
        at: Place,
        style: &str,
        words: &str,
        text: &[u8],
    ) -> Result<(), AllocError> {
        let Place { x, y } = at;
        let head = format!(in self.heap; "<text x=\"{x}\" y=\"{y}\" {style}>{words}")?;
        self.put(head.as_str())?;
        self.put_escaped(text)?;
        self.put("</text>\n")
    }

    // Words of the drawing itself, and then a number.
    pub(crate) fn count(
        &mut self,
        at: Place,
        style: &str,
        words: &str,
        n: u64,
    ) -> Result<(), AllocError> {
        let digits = format!(in self.heap; "{n}")?;
        self.text(at, style, words, digits.as_bytes())
    }
}
