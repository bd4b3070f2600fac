// Payments and sheets as plain values.
ghost use Rattle.std.specs.Prelude.{◌≡◌, ◌≤◌, length};

// A conditional payment: whoever is to get it gets the amount if the key of the lock is shown in time, and the
// end is the last tick for that. (The field: an HTLC, with its payment hash and its expiry.)
#[derive(Clone, Copy, PartialEq, Eq, Default, Debug)]
pub struct Payment {
    pub lock: [u8; 32],
    pub amount: u32,
    pub end: u32,
}

// A state of an account, in the view of whoever holds it. (The field: a channel state, or commitment.)
// `own` is its own money and `theirs` the neighbour's own. Ins are payments to it, taken from `theirs`; outs are
// payments from it, taken from `own`. What stands in an array past its count is of no matter: arrays with
// their counts are a rule of the project, which makes a sheet a plain value.
#[derive(Clone, Copy)]
pub struct Sheet {
    pub account: u8,
    pub number: u32,
    pub own: u32,
    pub theirs: u32,
    pub(crate) ins: [Payment; 32],
    pub(crate) in_count: usize,
    pub(crate) outs: [Payment; 32],
    pub(crate) out_count: usize,
    ghost few_ins: { in_count ≤ 32 },
    ghost few_outs: { out_count ≤ 32 },
    ghost whole_ins: { length ins ≡ 32 },
    ghost whole_outs: { length outs ≡ 32 },
}
