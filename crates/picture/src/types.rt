// What a drawing is made of.

// What a party put in and came out with; without `came_out` not all of it is settled.
#[derive(Clone, Copy)]
pub struct Total {
    pub put_in: u64,
    pub came_out: Option<u64>,
}

// A line downwards, for a party or for the register.
#[derive(Drop)]
pub struct Lane {
    pub name: Vec<u8>,
    pub total: Option<Total>,
}

// What is drawn in a row. Lanes go by their number from the left, and the bars of a lane, which stand side by side, by theirs.
#[derive(Clone, Copy, PartialEq, Eq)]
pub enum Mark {
    // a message or a signature, from lane to lane
    Arrow { from: usize, to: usize },
    Note { lane: usize },
    Key { lane: usize },
    Stop { lane: usize },
    Start { lane: usize },
    // a dispute goes from the row in which it begins to that in which it ends, or to the last
    BarBegins { lane: usize, bar: usize },
    BarEnds { lane: usize, bar: usize },
}

// One thing that happens: the rows stand evenly one below the other, whatever their ticks.
#[derive(Drop)]
pub struct Row {
    pub tick: u32,
    pub mark: Mark,
    pub refused: bool,
    pub text: Vec<u8>,
}

#[derive(Drop)]
pub struct Picture {
    pub title: Vec<u8>,
    pub lanes: Vec<Lane>,
    pub rows: Vec<Row>,
}
