// The terms as plain values, and which number of them is too small.

#[derive(Clone, Copy, PartialEq, Eq, Debug)]
pub enum TooSmall {
    Look,
    Window,
    Gap,
}

// The numbers that all accounts of a node go by, in ticks, whether or not they keep the rules. (The field: timelock delta,
// contest period, confirmation time, watch interval.)
#[derive(Clone, Copy, PartialEq, Eq, Debug)]
pub struct Terms {
    pub gap: u32,
    pub window: u32,
    pub delay: u32,
    pub look: u32,
}
