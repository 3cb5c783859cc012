// The library for C: each call under a name of its own, its answer as one number.
#![tactic(auto)]

ghost use Rattle.std.specs.Prelude.{◌≡◌};
ghost use Rattle.tables.specs.Sound.{table_refusal};
ghost use Rattle.make.specs.Make.{make_tables};
ghost use Rattle.lookup.specs.Lookup.{lookup_tables};
ghost use Rattle.lookup.specs.Counts.{lookup_counts};
ghost use Rattle.wake.specs.Wake.{wake_tables};
ghost use Rattle.model.specs.Steps.{put, delete, delete_range};
ghost use Rattle.model.specs.Calls.{written, flush, tick};
ghost use Rattle.call_tables.specs.Calls.{lent, call_tables};
ghost use Rattle.scan.specs.Scan.{scan_tables, scan_counts_tables};
ghost use Rattle.call_op.specs.Ops.{op_of};
ghost use Rattle.c_packing.specs.Packed.{packed, packed_lookup, packed_call, packed_wake, packed_scan};

use c_packing::{pack, pack_lookup, pack_scanned, pack_wake, price_of};
use call_any::call;
use call_op::Op;
use check_refusal::check_tables;
use lookup::{lookup, lookup_count, without_price};
use make::make;
use model::Tally;
use refusals::{numbered, refusal_number};
use scan::{CountRow, Row, scan, scan_counts};
use wake::wake;

// The number of the refusal that the tables meet, 1 to 3, or 0 where they are sound.
#[unsafe(no_mangle)]
pub extern "C" fn guontrem_check(entries: &[u32], levels: &[u32]) -> u32
    ensures { result ≡ table_refusal entries.now levels.now }
{
    refusal_number(check_tables(entries, levels))
}

// Makes a store; answers 0, or the number of the refusal with both tables as they were.
#[unsafe(no_mangle)]
pub extern "C" fn guontrem_make(
    entries: &mut [u32],
    levels: &mut [u32],
    deepest: u32,
    ratio: u32,
    buffer: u32,
    term: u32,
) -> u32
    ensures { record { refusal = result; entries = entries.new; levels = levels.new } ≡
        make_tables entries.old levels.old (record { deepest = deepest; ratio = ratio; buffer = buffer; term = term }) }
{
    refusal_number(make(entries, levels, deepest, ratio, buffer, term))
}

// Count and stamp in the lower and the upper half; where the upper half is 0, the lower is the refusal, or 0 for absent. The price goes to a place
// of its own: 0 where the docket is absent or the lookup refused.
#[unsafe(no_mangle)]
pub extern "C" fn guontrem_lookup(
    entries: &[u32],
    levels: &[u32],
    docket: u32,
    price: &mut u32,
) -> u64
    ensures { record { number = result; price = price.new } ≡ packed_lookup (lookup_tables entries.now levels.now docket) }
{
    let answer = numbered(lookup(entries, levels, docket));
    *price = price_of(answer);
    pack_lookup(without_price(answer))
}

// The grower's lookup: count and stamp alone.
#[unsafe(no_mangle)]
pub extern "C" fn guontrem_lookup_count(entries: &[u32], levels: &[u32], docket: u32) -> u64
    ensures { result ≡ packed (lookup_counts entries.now levels.now docket) }
{
    pack_lookup(numbered(lookup_count(entries, levels, docket)))
}

// Puts a docket's count and price.
#[unsafe(no_mangle)]
pub extern "C" fn guontrem_put(
    entries: &mut [u32],
    levels: &mut [u32],
    clock: u32,
    docket: u32,
    count: u32,
    price: u32,
) -> u64
    ensures { record { tables = lent entries.new levels.new; number = result } ≡
        packed_call (call_tables (lent entries.old levels.old) (record { clock = clock; op = written (put docket (record { count = count; price = price })) })) }
{
    call_packed(
        entries,
        levels,
        clock,
        Op::Put(docket, Tally { count, price }),
    )
}

// Deletes a docket.
#[unsafe(no_mangle)]
pub extern "C" fn guontrem_delete(
    entries: &mut [u32],
    levels: &mut [u32],
    clock: u32,
    docket: u32,
) -> u64
    ensures { record { tables = lent entries.new levels.new; number = result } ≡
        packed_call (call_tables (lent entries.old levels.old) (record { clock = clock; op = written (delete docket) })) }
{
    call_packed(entries, levels, clock, Op::Delete(docket))
}

// Deletes the dockets from lo to hi; its clock is its date.
#[unsafe(no_mangle)]
pub extern "C" fn guontrem_delete_range(
    entries: &mut [u32],
    levels: &mut [u32],
    clock: u32,
    lo: u32,
    hi: u32,
) -> u64
    ensures { record { tables = lent entries.new levels.new; number = result } ≡
        packed_call (call_tables (lent entries.old levels.old) (record { clock = clock; op = written (delete_range lo hi clock) })) }
{
    call_packed(entries, levels, clock, Op::DeleteRange(lo, hi, clock))
}

// Deletes the dockets from lo to hi whose stamps are at most a date.
#[unsafe(no_mangle)]
pub extern "C" fn guontrem_delete_range_dated(
    entries: &mut [u32],
    levels: &mut [u32],
    clock: u32,
    lo: u32,
    hi: u32,
    date: u32,
) -> u64
    ensures { record { tables = lent entries.new levels.new; number = result } ≡
        packed_call (call_tables (lent entries.old levels.old) (record { clock = clock; op = written (delete_range lo hi date) })) }
{
    call_packed(entries, levels, clock, Op::DeleteRange(lo, hi, date))
}

// Merges the buffer, full or not, and does the pass.
#[unsafe(no_mangle)]
pub extern "C" fn guontrem_flush(entries: &mut [u32], levels: &mut [u32], clock: u32) -> u64
    ensures { record { tables = lent entries.new levels.new; number = result } ≡
        packed_call (call_tables (lent entries.old levels.old) (record { clock = clock; op = flush })) }
{
    call_packed(entries, levels, clock, Op::Flush)
}

// Does the pass alone.
#[unsafe(no_mangle)]
pub extern "C" fn guontrem_tick(entries: &mut [u32], levels: &mut [u32], clock: u32) -> u64
    ensures { record { tables = lent entries.new levels.new; number = result } ≡
        packed_call (call_tables (lent entries.old levels.old) (record { clock = clock; op = tick })) }
{
    call_packed(entries, levels, clock, Op::Tick)
}

// When the next merge is due: its clock; where there is none bit 63 alone, where the tables are refused with the refusal below it.
#[unsafe(no_mangle)]
pub extern "C" fn guontrem_wake(entries: &[u32], levels: &[u32]) -> u64
    ensures { result ≡ packed_wake (wake_tables entries.now levels.now) }
{
    pack_wake(numbered(wake(entries, levels)))
}

// A timed call, its answer as one number.
fn call_packed(entries: &mut [u32], levels: &mut [u32], clock: u32, op: Op) -> u64
    ensures { record { tables = lent entries.new levels.new; number = result } ≡
        packed_call (call_tables (lent entries.old levels.old) (record { clock = clock; op = op_of op })) }
{
    match call(entries, levels, clock, op) {
        Ok(answer) => pack(0, answer.merges, answer.purged),
        Err(refusal) => pack(refusal.number(), 0, 0),
    }
}

// Fills the rows with the live dockets from lo to hi: count in the lower half, the next docket from bit 32, 'more' as bit 48, the refusal from bit 56.
#[unsafe(no_mangle)]
pub extern "C" fn guontrem_scan(
    entries: &[u32],
    levels: &[u32],
    lo: u32,
    hi: u32,
    rows: &mut [Row],
) -> u64
    ensures value { result ≡ packed_scan (scan_tables entries.now levels.now lo hi rows.old).answer }
    ensures rows_after { rows.new ≡ (scan_tables entries.now levels.now lo hi rows.old).rows }
{
    pack_scanned(scan(entries, levels, lo, hi, rows))
}

// The same over the grower's rows, counts and stamps alone.
#[unsafe(no_mangle)]
pub extern "C" fn guontrem_scan_counts(
    entries: &[u32],
    levels: &[u32],
    lo: u32,
    hi: u32,
    rows: &mut [CountRow],
) -> u64
    ensures value { result ≡ packed_scan (scan_counts_tables entries.now levels.now lo hi rows.old).answer }
    ensures rows_after { rows.new ≡ (scan_counts_tables entries.now levels.now lo hi rows.old).rows }
{
    pack_scanned(scan_counts(entries, levels, lo, hi, rows))
}
