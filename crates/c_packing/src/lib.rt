// The answers of the calls, each as one number. A refusal comes as a number of any size, as C has it.
#![tactic(auto)]

ghost use Rattle.std.specs.Prelude.{◌≡◌, ◌<◌, ◌≤◌};
ghost use Rattle.lookup.specs.Lookup.{answer_of, numbers};
ghost use Rattle.scan.specs.Scan as scans;
ghost use Rattle.c_packing.specs.Packed.{packed, answer_number, packed_wake, packed_scan};

use lookup_level::Found;
use model::Tally;
use refusals::Refusal;
use scan::Scanned;

// Stamps stand above the count.
const STAMP_UNIT: u64 = 4294967296;

// Merges stand above the purged records, and the refusal above the merges.
const MERGES_UNIT: u64 = 4294967296;

const REFUSAL_UNIT: u64 = 1099511627776;

// Above every clock: there is none.
const NO_CLOCK: u64 = 9223372036854775808;

// The next docket, 'more' and the refusal of a scan stand above its count.
const NEXT_UNIT: u64 = 4294967296;

const MORE_UNIT: u64 = 281474976710656;

const SCAN_REFUSAL_UNIT: u64 = 72057594037927936;

// The answer of a lookup as one number, which has no room for a price.
pub fn pack_lookup(answer: Result<Option<Found<u32>>, u32>) -> u64
    ensures { result ≡ packed (answer_of answer) }
{
    match answer {
        Ok(Some(found)) => found.shown as u64 + STAMP_UNIT * found.stamp as u64,
        Ok(None) => 0,
        Err(refusal) => refusal as u64,
    }
}

// The price that goes beside it: 0 where the docket is absent or the lookup refused.
pub fn price_of(answer: Result<Option<Found<Tally>>, u32>) -> u32
    ensures { result ≡ (numbers (answer_of answer)).price }
{
    match answer {
        Ok(Some(found)) => found.shown.price,
        Ok(None) => 0,
        Err(_) => 0,
    }
}

// The numbers of a timed call's answer in one: purged in the lower half, merges from bit 32, the refusal from bit 40.
pub fn pack(refusal: u32, merges: u32, purged: u32) -> u64
    requires refusal_bound { refusal ≤ 255 }
    requires merges_bound { merges ≤ 255 }
    ensures { result ≡ answer_number (record { refusal = refusal; merges = merges; purged = purged }) }
{
    purged as u64 + MERGES_UNIT * merges as u64 + REFUSAL_UNIT * refusal as u64
}

// When to wake as one number: the clock, or bit 63 alone for none, or with the refusal below it.
pub fn pack_wake(answer: Result<Option<u64>, u32>) -> u64
    ensures { result ≡ packed_wake answer }
{
    match answer {
        Ok(Some(clock)) => clock,
        Ok(None) => NO_CLOCK,
        Err(refusal) => NO_CLOCK + refusal as u64,
    }
}

// The answer of a scan as one number.
pub fn pack_scanned(answer: Result<Scanned, Refusal>) -> u64
    requires { ((scans.numbers answer).count < 4294967296) × ((scans.numbers answer).next < 65536) }
    ensures { result ≡ packed_scan (scans.numbers answer) }
{
    match answer {
        Ok(
            Scanned {
                count,
                next: Some(docket),
            },
        ) => pack_scan(0, count, true, docket),
        Ok(Scanned { count, next: None }) => pack_scan(0, count, false, 0),
        Err(refusal) => pack_scan(refusal.number(), 0, false, 0),
    }
}

// The numbers of a scan's answer in one. 'More' and the next docket stand apart, as C has them.
pub fn pack_scan(refusal: u32, count: usize, more: bool, next: u32) -> u64
    requires { (count < 4294967296) × (next < 65536) × (refusal < 256) }
    ensures { result ≡ packed_scan (record { refusal = refusal; count = count; more = more; next = next }) }
{
    let more = if more { MORE_UNIT } else { 0 };
    count as u64 + NEXT_UNIT * next as u64 + more + SCAN_REFUSAL_UNIT * refusal as u64
}
