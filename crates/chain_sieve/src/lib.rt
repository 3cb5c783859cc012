// Cells dropped from a chain where a test of the slot says so; and such tests: of the kind, the docket, coverage, and both dockets of a range.
// The two walks follow links and count no index; no iterator holds a chain whose links the walk rewrites.
#![tactic(auto)]

ghost use Rattle.std.specs.Prelude.{◌≡◌};
ghost use Rattle.lists.specs.All.{Exists};
ghost use Rattle.lists.specs.Lists.{select};
ghost use Rattle.tables.specs.Slots.{InTable};
ghost use Rattle.chain_cells.specs.Cells.{cell_at};
ghost use Rattle.chain_cells.specs.Sifting.{Chain, ChainAt, OneHeld, Sifted};
ghost use Rattle.chain_sieve.specs.Doomed.{Decides, first_of, is_delete, has_docket, has_span, is_covered_by};

use chain_cells::{Cursor, sift};
use chain_cover::covers;
use table_slots::{Kind, has_kind, hi_of, lo_of, next_of, stamp_of};

// The chain from first without the cells that go, as the test of their slots says.
pub fn sieve<F: Fn(&[u32], usize) -> bool>(e: &mut [u32], first: usize, goes: F) -> Cursor
    requires held { ChainAt e.old first }
    requires decides { Exists (λ test. Decides test (F.pre goes) (F.post goes)) }
    ensures { (g : Chain) (test : _) → Decides test (F.pre goes) (F.post goes) → OneHeld g e.old first → Sifted test g e.new result }
{
    let mut m = Cursor::at_start(first);
    while m.at != 0 {
        let doomed = goes(e, m.at);
        m = sift(e, m, doomed);
    }
    m
}

// The first slot of a cell that would go.
pub fn first_doomed<F: Fn(&[u32], usize) -> bool>(e: &[u32], first: usize, goes: F) -> Option<usize>
    requires held { ChainAt e.now first }
    requires decides { Exists (λ test. Decides test (F.pre goes) (F.post goes)) }
    ensures { (g : Chain) (test : _) → Decides test (F.pre goes) (F.post goes) → OneHeld g e.now first → result ≡ first_of (select test g.cells) }
{
    let mut at = first;
    while at != 0 {
        if goes(e, at) {
            return Some(at);
        }
        at = next_of(e, at);
    }
    None
}

// A delete among points.
pub fn is_delete(e: &[u32], slot: usize) -> bool
    requires { InTable e.now slot }
    ensures { result ≡ is_delete (cell_at e.now slot) }
{
    has_kind(e, slot, Kind::Delete)
}

// A point of the docket.
pub fn has_docket(e: &[u32], slot: usize, docket: u32) -> bool
    requires { InTable e.now slot }
    ensures { result ≡ has_docket docket (cell_at e.now slot) }
{
    lo_of(e, slot) == docket
}

// A point that the delete from lo to hi with the date covers.
pub fn is_covered_by(e: &[u32], slot: usize, lo: u32, hi: u32, date: u32) -> bool
    requires { InTable e.now slot }
    ensures { result ≡ is_covered_by lo hi date (cell_at e.now slot) }
{
    covers(lo, hi, date, lo_of(e, slot), stamp_of(e, slot))
}

// The range from lo to hi.
pub fn has_span(e: &[u32], slot: usize, lo: u32, hi: u32) -> bool
    requires { InTable e.now slot }
    ensures { result ≡ has_span lo hi (cell_at e.now slot) }
{
    (lo_of(e, slot) == lo) & (hi_of(e, slot) == hi)
}
