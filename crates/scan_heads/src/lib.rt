// What each of some levels has next, as numbers in ascending order: the least is the least docket's, and of its the shallowest level's.
#![tactic(auto)]

ghost use Rattle.std.specs.Prelude.{◌≡◌, ◌≢◌, ◌<◌};
ghost use Rattle.chain_cover.specs.Walks.{Ordered};
ghost use Rattle.scan_heads.specs.Heads.{key_from, head_at, key_of, level_of, slot_of, sunk, pushed, passed, blank};

use table_slots::{lo_of, next_of};

// Past the last docket: no record is left. A number, and no Option, since it stands in order behind every docket.
const NO_KEY: u32 = 65536;

// The head of level 7, which there is not, past the last docket: 65,536 × 4,294,967,296 + 7 × 65,536.
const NO_HEAD: u64 = 281474977169408;

// The least of some heads with its slot, and the others after it. The slot is told apart, so that the next record can be read before
// the docket of this one is known. The others are fields for speed: with an array and a loop over it the hall's scan of one level takes a
// fifth more time; an array that a pattern takes apart is as fast, and no plainer.
#[derive(Clone, Copy)]
pub struct Heads {
    pub slot: usize,
    pub first: u64,
    pub h1: u64,
    pub h2: u64,
    pub h3: u64,
    pub h4: u64,
    pub h5: u64,
    pub h6: u64,
}

// No level has anything to come.
pub fn nothing() -> Heads
    ensures { result ≡ blank }
{
    Heads {
        slot: 0,
        first: NO_HEAD,
        h1: NO_HEAD,
        h2: NO_HEAD,
        h3: NO_HEAD,
        h4: NO_HEAD,
        h5: NO_HEAD,
        h6: NO_HEAD,
    }
}

// One head more, at its place; the last one goes.
pub fn push(a: Heads, h: u64) -> Heads
    ensures { result ≡ pushed a h }
{
    let b = Heads {
        slot: 0,
        first: 0,
        h1: a.first.min(h),
        h2: a.h1,
        h3: a.h2,
        h4: a.h3,
        h5: a.h4,
        h6: a.h5,
    };
    sink(b, a.first.max(h))
}

// The first record is passed, and its level's next head takes its place among the others. A level that stays ahead changes nothing else.
pub fn pass(e: &[u32], a: Heads) -> Heads
    requires ordered { Ordered e.now a.slot }
    requires slot_nonzero { a.slot ≢ 0 }
    ensures { result ≡ passed e.now a }
{
    let next = next_of(e, a.slot);
    let h = head(e, level_of(a.first), next);
    if h < a.h1 {
        Heads {
            slot: next,
            first: h,
            ..a
        }
    } else {
        sink(a, h)
    }
}

// The second head leads, and h takes its place behind it: of each two the lesser stays, and the greater goes on to the next.
fn sink(a: Heads, h: u64) -> Heads
    ensures { result ≡ sunk a h }
{
    let x2 = a.h2.max(h);
    let x3 = a.h3.max(x2);
    let x4 = a.h4.max(x3);
    let x5 = a.h5.max(x4);
    Heads {
        slot: slot_of(a.h1),
        first: a.h1,
        h1: a.h2.min(h),
        h2: a.h3.min(x2),
        h3: a.h4.min(x3),
        h4: a.h5.min(x4),
        h5: a.h6.min(x5),
        h6: a.h6.max(x5),
    }
}

// What a level has next, from a slot on, as one number: the docket × 4,294,967,296 + the level × 65,536 + the slot.
pub fn head(e: &[u32], level: usize, slot: usize) -> u64
    requires ordered { Ordered e.now slot }
    requires level_bound { level < 65536 }
    requires slot_bound { slot < 65536 }
    ensures { result ≡ head_at e.now level slot }
{
    key_at(e, slot) as u64 * 4294967296 + (level * 65536 + slot) as u64
}

// Where the first record of a chain begins.
pub fn key_at(e: &[u32], slot: usize) -> u32
    requires { Ordered e.now slot }
    ensures { result ≡ key_from e.now slot }
{
    if slot == 0 { NO_KEY } else { lo_of(e, slot) }
}

pub fn key_of(h: u64) -> u32
    ensures { result ≡ key_of h }
{
    (h / 4294967296) as u32
}

pub fn level_of(h: u64) -> usize
    ensures { result ≡ level_of h }
{
    (h / 65536 % 65536) as usize
}

fn slot_of(h: u64) -> usize
    ensures { result ≡ slot_of h }
{
    (h % 65536) as usize
}
