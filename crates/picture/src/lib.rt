// Drawings of what happened between some parties, as SVG documents. Leans on std alone.
// Promises: what comes from outside is escaped just as specs/Escape.antt says; drawing is safe for any input, and ends.
#![tactic(auto)]

ghost use Rattle.picture.specs.Escape.{NoMarkup};

mod drawing;
mod escape;
mod layout;
mod shapes;
mod types;

pub use drawing::draw;
pub use escape::push_escaped;
pub use types::{Lane, Mark, Picture, Row, Total};

// The theorem that an escaped text has none of the bytes that open or close a tag or end a quoted value.
pub fn no_markup_stands()
    ensures { NoMarkup }
{}
