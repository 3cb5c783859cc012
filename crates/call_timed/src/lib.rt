// The timed calls, each one operation of `call`: six names, so that a caller says which call it makes and hands over what that one needs.
#![tactic(auto)]

ghost use Rattle.std.specs.Prelude.{◌≡◌};
ghost use Rattle.model.specs.Steps.{put, delete, delete_range};
ghost use Rattle.model.specs.Calls.{flush, tick, written};
ghost use Rattle.call_tables.specs.Calls.{lent, call_tables};
ghost use Rattle.call_end.specs.Coded.{called};

use call_any::call;
use call_end::Answer;
use call_op::Op;
use model::Tally;
use refusals::Refusal;

// Puts a docket's tally.
pub fn put(
    entries: &mut [u32],
    levels: &mut [u32],
    clock: u32,
    docket: u32,
    tally: Tally,
) -> Result<Answer, Refusal>
    ensures { called entries.new levels.new result ≡
        call_tables (lent entries.old levels.old) (record { clock = clock; op = written (put docket tally) }) }
{
    call(entries, levels, clock, Op::Put(docket, tally))
}

// Deletes a docket.
pub fn delete(
    entries: &mut [u32],
    levels: &mut [u32],
    clock: u32,
    docket: u32,
) -> Result<Answer, Refusal>
    ensures { called entries.new levels.new result ≡ call_tables (lent entries.old levels.old) (record { clock = clock; op = written (delete docket) }) }
{
    call(entries, levels, clock, Op::Delete(docket))
}

// Deletes the dockets from lo to hi; its clock is its date.
pub fn delete_range(
    entries: &mut [u32],
    levels: &mut [u32],
    clock: u32,
    lo: u32,
    hi: u32,
) -> Result<Answer, Refusal>
    ensures { called entries.new levels.new result ≡
        call_tables (lent entries.old levels.old) (record { clock = clock; op = written (delete_range lo hi clock) }) }
{
    call(entries, levels, clock, Op::DeleteRange(lo, hi, clock))
}

// Deletes the dockets from lo to hi whose stamps are at most a date.
pub fn delete_range_dated(
    entries: &mut [u32],
    levels: &mut [u32],
    clock: u32,
    lo: u32,
    hi: u32,
    date: u32,
) -> Result<Answer, Refusal>
    ensures { called entries.new levels.new result ≡
        call_tables (lent entries.old levels.old) (record { clock = clock; op = written (delete_range lo hi date) }) }
{
    call(entries, levels, clock, Op::DeleteRange(lo, hi, date))
}

// Merges the buffer, full or not, and does the pass.
pub fn flush(entries: &mut [u32], levels: &mut [u32], clock: u32) -> Result<Answer, Refusal>
    ensures { called entries.new levels.new result ≡ call_tables (lent entries.old levels.old) (record { clock = clock; op = flush }) }
{
    call(entries, levels, clock, Op::Flush)
}

// Does the pass alone.
pub fn tick(entries: &mut [u32], levels: &mut [u32], clock: u32) -> Result<Answer, Refusal>
    ensures { called entries.new levels.new result ≡ call_tables (lent entries.old levels.old) (record { clock = clock; op = tick }) }
{
    call(entries, levels, clock, Op::Tick)
}
