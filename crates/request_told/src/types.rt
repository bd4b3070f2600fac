// What a line asks for.
use looking::Shown;

// A look at a tick, with what the register shows then.
#[derive(Drop)]
pub struct TickShown {
    pub tick: u32,
    pub shown: Vec<Shown>,
}

pub type Request = any_request::Request<TickShown>;
