// The operations of the timed calls: the dockets that each names, its date, and the work that it is before its pass.
#![tactic(auto)]

ghost use Rattle.std.specs.Prelude.{◌≡◌};
ghost use Rattle.model.specs.Calls.{bad_docket, bad_date, count_written};
ghost use Rattle.check_refusal.specs.Dockets.{bad_dockets};
ghost use Rattle.call_op.specs.Ops.{op_of};
ghost use Rattle.call_op.specs.Works.{work_of};

use model::Tally;
use table_slots::Kind;
use write_record::Record;

// What a timed call does: a put of a docket and its tally, a delete of a docket, a delete of the dockets from lo to hi by a date, a flush or a tick.
#[derive(Clone, Copy)]
pub enum Op {
    Put(u32, Tally),
    Delete(u32),
    DeleteRange(u32, u32, u32),
    Flush,
    Tick,
}

// The dockets from lo to hi.
#[derive(Clone, Copy)]
pub struct Span {
    pub lo: u32,
    pub hi: u32,
}

// What is done before the pass: a record is written, the buffer is merged, or nothing.
#[derive(Clone, Copy)]
pub enum Work {
    Write(Record),
    Merge,
    Nothing,
}

impl Op {
    // The dockets that it names; 0 alone where it names none.
    pub fn dockets(self) -> Span
        ensures { bad_docket (op_of self) ≡ bad_dockets result.lo result.hi }
    {
        match self {
            Op::Put(docket, _) | Op::Delete(docket) => Span {
                lo: docket,
                hi: docket,
            },
            Op::DeleteRange(lo, hi, _) => Span { lo, hi },
            Op::Flush | Op::Tick => Span { lo: 0, hi: 0 },
        }
    }

    // Whether its date is 0 or after the clock; no date is neither.
    pub fn is_misdated(self, clock: u32) -> bool
        ensures { result ≡ bad_date clock (op_of self) }
    {
        match self {
            Op::DeleteRange(_, _, date) => date == 0 || clock < date,
            Op::Put(_, _) | Op::Delete(_) | Op::Flush | Op::Tick => false,
        }
    }

    // The records that it writes.
    pub fn records_written(self) -> u32
        ensures { result ≡ count_written (op_of self) }
    {
        match self {
            Op::Put(_, _) | Op::Delete(_) | Op::DeleteRange(_, _, _) => 1,
            Op::Flush | Op::Tick => 0,
        }
    }

    // Its work; every write is its record.
    pub fn work(self) -> Work
        ensures { result ≡ work_of (op_of self) }
    {
        match self {
            Op::Put(docket, tally) => Work::Write(point_record(Kind::Put, docket, tally)),
            Op::Delete(docket) => Work::Write(point_record(Kind::Delete, docket, Tally::NONE)),
            Op::DeleteRange(lo, hi, date) => Work::Write(Record {
                kind: Kind::Range,
                lo,
                hi,
                tally: Tally {
                    count: date,
                    price: 0,
                },
            }),
            Op::Flush => Work::Merge,
            Op::Tick => Work::Nothing,
        }
    }
}

// The record of a put or a delete of one docket.
fn point_record(kind: Kind, docket: u32, tally: Tally) -> Record
    ensures { result ≡ record { kind = kind; lo = docket; hi = docket; tally = tally } }
{
    Record {
        kind,
        lo: docket,
        hi: docket,
        tally,
    }
}
