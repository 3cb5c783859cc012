// Scan: the live dockets from lo to hi, written into the caller's rows. The hall's rows show all, the grower's counts and stamps only.
#![tactic(auto)]

ghost use Rattle.std.specs.Prelude.{◌≡◌};
ghost use Rattle.model.specs.declared.Tally.{Tally};
ghost use Rattle.model.specs.Lookup as model;
ghost use Rattle.std.specs.Option.{option_map};
ghost use Rattle.tables.specs.Slots.{InTable};
ghost use Rattle.scan_step.specs.Sweeps.{live_of};
ghost use Rattle.scan.specs.Scan.{numbers, scan_state, scan_counts_tables, written};
ghost use Rattle.scan.specs.Rows.{row_in, counted};

use check_refusal::check_dockets;
use refusals::Refusal;
use scan_step::{Live, Sweep};
use scan_sweep::{advance, search, set_out};
use table_slots::{count_of, stamp_of, tally_of};

// A row of a scan's list, and what it shows of a live docket.
pub trait Listed: Copy {
    // A live docket's row, as it is written.
    ghost shown: { model.Row Tally → Self };

    // The row of the live docket whose put is in the slot.
    fn of(entries: &[u32], live: Live) -> Self
        requires { InTable entries.now live.slot }
        ensures { result ≡ shown (row_in entries.now live) };
}

// A live docket, its count, its price and its stamp, as C lays them out.
#[repr(C)]
#[derive(Clone, Copy)]
pub struct Row {
    pub docket: u32,
    pub count: u32,
    pub price: u32,
    pub stamp: u32,
}

impl Listed for Row {
    ghost shown = { written };

    fn of(entries: &[u32], live: Live) -> Row {
        let tally = tally_of(entries, live.slot);
        let stamp = stamp_of(entries, live.slot);
        Row {
            docket: live.docket,
            count: tally.count,
            price: tally.price,
            stamp,
        }
    }
}

// The same for the grower: a live docket, its count and its stamp.
#[repr(C)]
#[derive(Clone, Copy)]
pub struct CountRow {
    pub docket: u32,
    pub count: u32,
    pub stamp: u32,
}

impl Listed for CountRow {
    ghost shown = { counted };

    // No price is read for it.
    fn of(entries: &[u32], live: Live) -> CountRow {
        CountRow {
            docket: live.docket,
            count: count_of(entries, live.slot),
            stamp: stamp_of(entries, live.slot),
        }
    }
}

// What a scan answers: how many rows it filled, and the next live docket where there are more.
#[derive(Clone, Copy)]
pub struct Scanned {
    pub count: usize,
    pub next: Option<u32>,
}

// Fills the rows with the live dockets from lo to hi, ascending: each row comes from a step of its own. At the hall's rows this is
// scan_tables, which is scan_state of what a Row shows. The two tables stay two slices, as C lends them.
pub fn scan<R: Listed>(
    entries: &[u32],
    levels: &[u32],
    lo: u32,
    hi: u32,
    rows: &mut [R],
) -> Result<Scanned, Refusal>
    ensures { record { answer = numbers result; rows = rows.new } ≡ scan_state R.shown entries.now levels.now lo hi rows.old }
{
    check_dockets(entries, levels, lo, hi)?;
    let room = rows.len();
    let mut m = search(entries, set_out(entries, levels, lo, hi));
    for (count, row) in rows.iter_mut().enumerate() {
        let Some(live) = m.live() else {
            return Ok(Scanned { count, next: None });
        };
        *row = R::of(entries, live);
        m = advance(entries, m);
    }
    Ok(Scanned {
        count: room,
        next: next_docket(m),
    })
}

// The same over the grower's rows, by the counts that the tables read as.
#[inline(always)]
pub fn scan_counts(
    entries: &[u32],
    levels: &[u32],
    lo: u32,
    hi: u32,
    rows: &mut [CountRow],
) -> Result<Scanned, Refusal>
    ensures { record { answer = numbers result; rows = rows.new } ≡ scan_counts_tables entries.now levels.now lo hi rows.old }
{
    scan(entries, levels, lo, hi, rows)
}

// The docket that a scan goes on from: the one that the sweep has come to.
#[inline(always)]
fn next_docket(m: Sweep) -> Option<u32>
    ensures { result ≡ option_map (λ live. live.docket) (live_of m) }
{
    m.live().map(|live| live.docket)
}
