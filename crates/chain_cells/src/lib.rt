// A chain walked with a cursor: its cells dropped, or another chain's cells put between them, in place.
#![tactic(auto)]

ghost use Rattle.std.specs.Prelude.{◌≡◌, ◌≢◌, ◌+◌, ◌<◌};
ghost use Rattle.lists.specs.All.{Exists};
ghost use Rattle.chain_cells.specs.Cells.{cell_at};
ghost use Rattle.chain_cells.specs.Sifting.{Sift, Sifting, Sifts, at_start};
ghost use Rattle.chain_cells.specs.Splicing.{Splice, Splicing, Chains, TwoHeld, Spliced, to_do};

use chain_links::{release, set_next};
use table_slots::{next_of, order_key};

// A place in a chain: its first slot, the slot before the place, the slot at it, and how many cells have gone. Slot 0 is none, as in the tables' links.
#[derive(Clone, Copy)]
pub struct Cursor {
    pub head: usize,
    pub prior: usize,
    pub at: usize,
    pub gone: usize,
}

impl Cursor {
    // At a chain's first slot, with nothing passed.
    pub fn at_start(first: usize) -> Cursor
        ensures { result ≡ at_start first }
    {
        Cursor {
            head: first,
            prior: 0,
            at: first,
            gone: 0,
        }
    }
}

// Two chains on the way to one: what is left of the upper, and a cursor in the lower.
#[derive(Clone, Copy)]
struct Pair {
    upper: usize,
    head: usize,
    prior: usize,
    at: usize,
}

// The cell at the cursor goes, or stays and is passed.
pub fn sift(e: &mut [u32], m: Cursor, goes: bool) -> Cursor
    requires exists { Exists (λ g. Sifting g e.old m) }
    requires at_nonzero { m.at ≢ 0 }
    ensures { (g : Sift) → Sifting g e.old m → goes ≡ g.test (cell_at e.old m.at) → Sifts g e.old m e.new result }
{
    let next = next_of(e, m.at);
    if !goes {
        return Cursor {
            prior: m.at,
            at: next,
            ..m
        };
    }
    release(e, m.at);
    let gone = m.gone + 1;
    if m.prior == 0 {
        Cursor {
            head: next,
            at: next,
            gone,
            ..m
        }
    } else {
        set_next(e, m.prior, next);
        Cursor {
            at: next,
            gone,
            ..m
        }
    }
}

// The cells of two ascending chains as one.
pub fn splice(e: &mut [u32], upper: usize, lower: usize) -> usize
    requires { Exists (λ g. TwoHeld g e.old upper lower) }
    ensures { (g : Chains) → TwoHeld g e.old upper lower → Spliced g e.new result }
{
    let mut m = Pair {
        upper,
        head: lower,
        prior: 0,
        at: lower,
    };
    // Both chains are followed by their links, which the step rewrites: no index is counted, and no iterator holds them.
    while m.upper != 0 {
        m = splice_step(e, m);
    }
    m.head
}

// The first upper cell goes before the cursor's, or the cursor passes a cell that comes before it.
fn splice_step(e: &mut [u32], m: Pair) -> Pair
    requires exists { Exists (λ g. Splicing g e.old m) }
    requires upper_nonzero { m.upper ≢ 0 }
    ensures { (g : Splice) → Splicing g e.old m → Splicing g e.new result × (to_do e.new result < to_do e.old m) }
{
    if m.at != 0 && order_key(e, m.at) <= order_key(e, m.upper) {
        let next = next_of(e, m.at);
        return Pair {
            prior: m.at,
            at: next,
            ..m
        };
    }
    let placed = m.upper;
    let upper = next_of(e, placed);
    set_next(e, placed, m.at);
    if m.prior == 0 {
        Pair {
            upper,
            head: placed,
            prior: placed,
            ..m
        }
    } else {
        set_next(e, m.prior, placed);
        Pair {
            upper,
            prior: placed,
            ..m
        }
    }
}
