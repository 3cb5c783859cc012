// Lookup of one docket in one level, given by its two chains: the points first, then the ranges. A lookup carries the latest date of
// the ranges over its docket that it has met so far.
#![tactic(auto)]

ghost use Rattle.std.specs.Prelude.{◌≡◌, map};
ghost use Rattle.tables.specs.Slots.{InTable};
ghost use Rattle.tables.specs.Sound.{chain_from};
ghost use Rattle.tables.specs.Placed.{read_point};
ghost use Rattle.chain_cover.specs.Walks.{Ordered};
ghost use Rattle.lookup_level.specs.Answers.{tells, decides, chain_level, level_decides};

use chain_cover::latest_date;
use model::Tally;
use table_slots::{Kind, has_kind, lo_of, next_of, stamp_of, tally_of};

// What is found of a docket: the stamp of its put, and the tally or what of it is shown. The stamp stands first: behind the tally both would be
// copied through memory, in parts that do not match.
#[derive(Clone, Copy)]
pub struct Found<T> {
    pub stamp: u32,
    pub shown: T,
}

// What one level says: that a put is found, that the docket is absent, or to go deeper with the latest date met so far.
#[derive(Clone, Copy)]
pub enum Decided {
    Value(Found<Tally>),
    Absent,
    Deeper(u32),
}

// One level, given by its chains: its points first, by the date met above it, then its ranges.
pub fn look_chains(e: &[u32], points: usize, ranges: usize, docket: u32, date: u32) -> Decided
    requires ordered { Ordered e.now points }
    requires ordered_2 { Ordered e.now ranges }
    ensures { result ≡ level_decides date (chain_level e.now points ranges) docket }
{
    match find_point(e, points, docket, date) {
        Decided::Deeper(met) => Decided::Deeper(met.max(latest_date(e, ranges, docket))),
        by_points => by_points,
    }
}

// What the point at a slot decides.
fn tell(e: &[u32], slot: usize, date: u32) -> Decided
    requires { InTable e.now slot }
    ensures { result ≡ tells date (read_point e.now slot).entry (read_point e.now slot).stamp }
{
    let stamp = stamp_of(e, slot);
    if stamp <= date || !has_kind(e, slot, Kind::Put) {
        Decided::Absent
    } else {
        let shown = tally_of(e, slot);
        Decided::Value(Found { stamp, shown })
    }
}

// Walks the points, which ascend, no farther than the docket: by their links, so that no index is counted.
fn find_point(e: &[u32], head: usize, docket: u32, date: u32) -> Decided
    requires { Ordered e.now head }
    ensures { result ≡ decides date (map (read_point e.now) (chain_from e.now head)) docket }
{
    let mut at = head;
    while at != 0 {
        let key = lo_of(e, at);
        if docket < key {
            return Decided::Deeper(date);
        }
        if key == docket {
            return tell(e, at, date);
        }
        at = next_of(e, at);
    }
    Decided::Deeper(date)
}
