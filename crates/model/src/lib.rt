// Document 01 as definitions, with its claims proved, and the tally of a pallet.
#![tactic(auto)]

// "A pallet's tally becomes a 32-bit count and a 32-bit price".
#[derive(Clone, Copy)]
pub struct Tally {
    pub count: u32,
    pub price: u32,
}

impl Tally {
    // That of a slot which has none.
    pub const NONE: Tally = Tally { count: 0, price: 0 };
}
