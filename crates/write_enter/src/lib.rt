// A write entered into the buffer: what it takes the place of goes, and its record comes into the first free slot.
#![tactic(auto)]

ghost use Rattle.std.specs.Prelude.{◌≡◌, ◌≢◌, cond, false, ◌≤◌, eqb};
ghost use Rattle.model.specs.declared.Tally.{Tally};
ghost use Rattle.lists.specs.All.{Exists};
ghost use Rattle.lists.specs.Lists.{none};
ghost use Rattle.model.specs.Merge.{earlier, release};
ghost use Rattle.model.specs.Steps.{Write, displaced, enter};
ghost use Rattle.model.specs.Calls.{written, bad_docket, bad_date};
ghost use Rattle.table_slots.specs.Kinds.{kind_number};
ghost use Rattle.table_slots.specs.declared.Kind.TheVariants.{Range};
ghost use Rattle.chain_cells.specs.Sifting.{Chain, ChainAt, OneHeld};
ghost use Rattle.merge_levels.specs.Laid.{Store, Laid, at_state};
ghost use Rattle.write_record.specs.Records.{record_of};
ghost use Rattle.write_enter.specs.Uniting.{united};
ghost use Rattle.write_enter.specs.Taking.{Free, FreeHeld, Taken};
ghost use Rattle.write_enter.specs.Entering.{Entry, Enters, EntryHeld, Entered, Entering};

use chain_cells::splice;
use chain_sieve::{first_doomed, has_span, sieve};
use model::Tally;
use table_levels::{Level, earlier, level_at, set_level};
use table_slots::{Kind, date_of, first_free, next_of, set_first_free, set_record};
use write_record::{Record, displaces};

// The write enters the buffer as a level of one record merged into it.
pub fn enter(e: &mut [u32], l: &mut [u32], clock: u32, w: Record)
    requires entering { Exists (λ g. Entering g e.old l.old clock w) }
    requires le_clock { 1 ≤ clock }
    ensures { (g : Store) (v : Write Tally) → Laid g e.old l.old → g.time ≡ clock → w ≡ record_of v → bad_docket (written v) ≡ false
        → bad_date clock (written v) ≡ false → none (release (displaced clock v g.state) g.state.free) ≡ false
        → Laid (at_state g (enter clock v g.state)) e.new l.new }
{
    let buffer = level_at(l, 0);
    let entered = enter_buffer(e, buffer, clock, w);
    set_level(l, 0, entered);
}

// A range delete goes among the buffer's ranges, any other write among its points.
fn enter_buffer(e: &mut [u32], buffer: Level, clock: u32, w: Record) -> Level
    requires { Enters e.old buffer clock w }
    ensures { (g : Entry) → EntryHeld g e.old buffer clock w → Entered g e.new result }
{
    match w.kind {
        Kind::Range => enter_range(e, buffer, clock, w),
        _ => enter_point(e, buffer, clock, w),
    }
}

// A range delete in the buffer: the points that it covers by its own date go, and a range of the same dockets, whose date it takes if that is the later one.
fn enter_range(e: &mut [u32], buffer: Level, clock: u32, w: Record) -> Level
    requires enters { Enters e.old buffer clock w }
    requires ranged { w.kind ≡ Range }
    ensures { (g : Entry) → EntryHeld g e.old buffer clock w → Entered g e.new result }
{
    let united = unite(e, buffer.ranges, w);
    let points = sieve(e, buffer.points, |e, slot| displaces(e, slot, w));
    let ranges = sieve(e, buffer.ranges, |e, slot| has_span(e, slot, w.lo, w.hi));
    let slot = take(e, clock, united);
    let first = splice(e, slot, ranges.head);
    Level {
        points: points.head,
        ranges: first,
        held: buffer.held - points.gone - ranges.gone + 1,
        owed: earlier(clock, buffer.owed),
    }
}

// A put or a delete in the buffer: a point of its docket goes, and every range stays.
fn enter_point(e: &mut [u32], buffer: Level, clock: u32, w: Record) -> Level
    requires enters { Enters e.old buffer clock w }
    requires pointed { w.kind ≢ Range }
    ensures { (g : Entry) → EntryHeld g e.old buffer clock w → Entered g e.new result }
{
    let points = sieve(e, buffer.points, |e, slot| displaces(e, slot, w));
    let slot = take(e, clock, w);
    let first = splice(e, slot, points.head);
    Level {
        points: first,
        held: buffer.held - points.gone + 1,
        owed: owed_with(w.kind, clock, buffer.owed),
        ..buffer
    }
}

// The record of a range delete with the later of its date and that of a range of the same dockets.
fn unite(e: &[u32], ranges: usize, w: Record) -> Record
    requires { ChainAt e.now ranges }
    ensures { (g : Chain) → OneHeld g e.now ranges → result ≡ united g.cells w }
{
    let Some(alike) = first_doomed(e, ranges, |e, slot| has_span(e, slot, w.lo, w.hi)) else {
        return w;
    };
    let count = w.tally.count.max(date_of(e, alike));
    Record {
        tally: Tally { count, ..w.tally },
        ..w
    }
}

// The record in the first free slot, a chain of its own.
fn take(e: &mut [u32], clock: u32, w: Record) -> usize
    requires { Exists (λ g. FreeHeld g e.old w) }
    ensures { (g : Free) → FreeHeld g e.old w → Taken g clock w e.new result }
{
    let slot = first_free(e);
    set_first_free(e, next_of(e, slot));
    set_record(e, slot, number_of(w.kind), w.lo, w.hi, w.tally, clock);
    slot
}

// A kind's number in a slot's word.
fn number_of(kind: Kind) -> u32
    ensures { result ≡ kind_number kind }
{
    kind as u32
}

// A put owes nothing; a delete owes from its clock on.
fn owed_with(kind: Kind, clock: u32, owed: u32) -> u32
    ensures { result ≡ earlier (cond (eqb (kind_number kind) 1) 0 clock) owed }
{
    match kind {
        Kind::Put => owed,
        _ => earlier(clock, owed),
    }
}
