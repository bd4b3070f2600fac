// A look that is its tick alone.
ghost use Rattle.std.specs.Prelude.{◌≡◌, ℕ};
ghost use Rattle.lines.specs.Lines.{words};
ghost use Rattle.any_request.specs.Looks.{on_look};
ghost use Rattle.request.specs.Ticks.{tick_of};

use any_request::{Look, read_tick};
use lines::next_word;
use refusal::Refusal;
use std::alloc::{AllocError, Global};

// The tick at which the node looks.
#[derive(Clone, Copy)]
pub struct Tick(pub u32);

pub type Request = any_request::Request<Tick>;

// tick T, past its first word.
fn tick_in(line: &[u8]) -> Result<Tick, Refusal>
    ensures { on_look (λ t. t.0) result ≡ tick_of (words line.now) }
{
    let word = next_word(line).ok_or(Refusal::Unreadable)?;
    if next_word(word.rest).is_some() {
        return Err(Refusal::Unreadable);
    }
    Ok(Tick(read_tick(word.text)?))
}

impl Look for Tick {
    ghost Seen = { ℕ };

    ghost seen = { λ t. t.0 };

    ghost look_of = { tick_of };

    fn read(_heap: Global, line: &[u8]) -> Result<Result<Tick, Refusal>, AllocError> {
        Ok(tick_in(line))
    }
}
