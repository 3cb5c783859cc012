// The words of the entry table: a slot read and written, slot 0 included, and how many slots there are.
// Table and slot stay two parameters: a walk has a new slot at each step, so a value of both would be made for each word that is read.
// A word's reader is one line under its definition's name; one for all, told which word, would be no plainer.
#![tactic(auto)]

ghost use Rattle.std.specs.Prelude.{◌≡◌, ◌<◌, ◌≤◌, leb, eqb};
ghost use Rattle.table_slots.specs.Kinds.{kind_number};
ghost use Rattle.tables.specs.Slots.{entry_length, slots_of, InTable, slot_at, set_slot, link_to, span_from, next_of, kind_of, span_of, lo_of, hi_of, tally_of, count_of};
ghost use Rattle.tables.specs.Slots.{price_of, date_of, stamp_of, free_slot, top_slot, first_free, clock_of, with_link, with_clock, with_tally, with_date};
ghost use Rattle.tables.specs.Sound.{is_untallied, order_key, top_blank, entries_fit};

use model::Tally;

// The kinds of records; a free slot has kind 0.
#[derive(Clone, Copy, Debug, PartialEq, Eq)]
pub enum Kind {
    Free = 0,
    Put = 1,
    Delete = 2,
    Range = 3,
}

// Words a slot.
const WORDS: usize = 5;

// The most slots that an entry table can have.
const MOST: usize = 65535;

// Kinds are stacked on next slots at this base, and hi on lo.
const BASE: u32 = 65536;

pub fn next_of(e: &[u32], slot: usize) -> usize
    requires { InTable e.now slot }
    ensures { result ≡ next_of e.now slot }
{
    (e[WORDS * slot] % BASE) as usize
}

// A number, and no `Kind`: tables of any content have any in this half of the word, and a link that changes keeps it.
pub fn kind_of(e: &[u32], slot: usize) -> u32
    requires { InTable e.now slot }
    ensures { result ≡ kind_of e.now slot }
{
    e[WORDS * slot] / BASE
}

// Whether a slot has a kind; where its word has another number than theirs it has none of them.
pub fn has_kind(e: &[u32], slot: usize, kind: Kind) -> bool
    requires { InTable e.now slot }
    ensures { result ≡ eqb (kind_of e.now slot) (kind_number kind) }
{
    kind_of(e, slot) == kind as u32
}

// Lo and hi in one word.
pub fn span_of(e: &[u32], slot: usize) -> u32
    requires { InTable e.now slot }
    ensures { result ≡ span_of e.now slot }
{
    e[WORDS * slot + 1]
}

pub fn lo_of(e: &[u32], slot: usize) -> u32
    requires { InTable e.now slot }
    ensures { result ≡ lo_of e.now slot }
{
    e[WORDS * slot + 1] % BASE
}

pub fn hi_of(e: &[u32], slot: usize) -> u32
    requires { InTable e.now slot }
    ensures { result ≡ hi_of e.now slot }
{
    e[WORDS * slot + 1] / BASE
}

pub fn tally_of(e: &[u32], slot: usize) -> Tally
    requires { InTable e.now slot }
    ensures { result ≡ tally_of e.now slot }
{
    Tally {
        count: count_of(e, slot),
        price: price_of(e, slot),
    }
}

pub fn count_of(e: &[u32], slot: usize) -> u32
    requires { InTable e.now slot }
    ensures { result ≡ count_of e.now slot }
{
    e[WORDS * slot + 2]
}

pub fn price_of(e: &[u32], slot: usize) -> u32
    requires { InTable e.now slot }
    ensures { result ≡ price_of e.now slot }
{
    e[WORDS * slot + 4]
}

// Word 2 of a range delete.
pub fn date_of(e: &[u32], slot: usize) -> u32
    requires { InTable e.now slot }
    ensures { result ≡ date_of e.now slot }
{
    count_of(e, slot)
}

// Neither count nor price. No branch hangs on a count: `&` asks both.
pub fn is_untallied(e: &[u32], slot: usize) -> bool
    requires { InTable e.now slot }
    ensures { result ≡ is_untallied e.now slot }
{
    (count_of(e, slot) == 0) & (price_of(e, slot) == 0)
}

pub fn stamp_of(e: &[u32], slot: usize) -> u32
    requires { InTable e.now slot }
    ensures { result ≡ stamp_of e.now slot }
{
    e[WORDS * slot + 3]
}

// One number orders points by docket and ranges by lo, then hi; it is wide, so that one more still fits.
pub fn order_key(e: &[u32], s: usize) -> usize
    requires { InTable e.now s }
    ensures { result ≡ order_key e.now s }
{
    let span = span_of(e, s);
    (span % BASE * BASE + span / BASE) as usize
}

// Slot 0 has the first free slot.
pub fn first_free(e: &[u32]) -> usize
    requires { InTable e.now 0 }
    ensures { result ≡ first_free e.now }
{
    e[0] as usize
}

// And the last accepted clock.
pub fn clock_of(e: &[u32]) -> u32
    requires { InTable e.now 0 }
    ensures { result ≡ clock_of e.now }
{
    e[1]
}

// Every other word of slot 0 is zero.
pub fn is_top_blank(e: &[u32]) -> bool
    requires { InTable e.now 0 }
    ensures { result ≡ top_blank e.now }
{
    is_untallied(e, 0) & (stamp_of(e, 0) == 0)
}

// Writes the next slot and the kind, which is stacked on it: any that the word has room for.
pub fn set_link(e: &mut [u32], slot: usize, next: usize, kind: u32)
    requires in_table { InTable e.old slot }
    requires next_bound { next < 65536 }
    requires kind_bound { kind < 65536 }
    ensures { e.new ≡ set_slot e.old slot (with_link (link_to next kind) (slot_at e.old slot)) }
{
    e[WORDS * slot] = next as u32 + BASE * kind;
}

// A put over a put changes no more than these.
pub fn set_tally(e: &mut [u32], slot: usize, tally: Tally, stamp: u32)
    requires { InTable e.old slot }
    ensures { e.new ≡ set_slot e.old slot (with_tally tally stamp (slot_at e.old slot)) }
{
    e[WORDS * slot + 2] = tally.count;
    e[WORDS * slot + 3] = stamp;
    e[WORDS * slot + 4] = tally.price;
}

// Nor does a range that takes a later date and stamp change more than these two.
pub fn set_date(e: &mut [u32], slot: usize, date: u32, stamp: u32)
    requires { InTable e.old slot }
    ensures { e.new ≡ set_slot e.old slot (with_date date stamp (slot_at e.old slot)) }
{
    e[WORDS * slot + 2] = date;
    e[WORDS * slot + 3] = stamp;
}

// Writes a record that no slot comes after, of any kind that the word has room for.
pub fn set_record(e: &mut [u32], slot: usize, kind: u32, lo: u32, hi: u32, tally: Tally, stamp: u32)
    requires in_table { InTable e.old slot }
    requires kind_bound { kind < 65536 }
    requires lo_bound { (lo < 65536) × (hi < 65536) }
    ensures { e.new ≡ set_slot e.old slot (record { link = link_to 0 kind; span = span_from lo hi; tally = tally; stamp = stamp }) }
{
    set_slot(e, slot, BASE * kind, lo + BASE * hi, tally, stamp);
}

// A free slot is zero but for its next, so that nothing of a wiped record is left.
pub fn set_free(e: &mut [u32], slot: usize, next: usize)
    requires in_table { InTable e.old slot }
    requires next_bound { next ≤ 4294967295 }
    ensures { e.new ≡ set_slot e.old slot (free_slot next) }
{
    set_slot(e, slot, next as u32, 0, Tally::NONE, 0);
}

// Slot 0 of a fresh store: the first free slot, and no clock.
pub fn set_top(e: &mut [u32], first: usize)
    requires in_table { InTable e.old 0 }
    requires first_bound { first ≤ 65535 }
    ensures { e.new ≡ set_slot e.old 0 (top_slot first 0) }
{
    set_slot(e, 0, first as u32, 0, Tally::NONE, 0);
}

pub fn set_first_free(e: &mut [u32], first: usize)
    requires in_table { InTable e.old 0 }
    requires first_bound { first ≤ 65535 }
    ensures { e.new ≡ set_slot e.old 0 (with_link first (slot_at e.old 0)) }
{
    e[0] = first as u32;
}

pub fn set_clock(e: &mut [u32], clock: u32)
    requires { InTable e.old 0 }
    ensures { e.new ≡ set_slot e.old 0 (with_clock clock (slot_at e.old 0)) }
{
    e[1] = clock;
}

// N, the slots beside slot 0.
pub fn slot_count(entries: &[u32]) -> usize
    ensures { result ≡ slots_of entries.now }
{
    // A table without even slot 0 has no slots.
    (entries.len() / WORDS).saturating_sub(1)
}

// Whether the table has the slot: a link may lead anywhere. One test less than with slot_count, for each slot of the check.
pub fn has_slot(entries: &[u32], slot: usize) -> bool
    requires { InTable entries.now 0 }
    ensures { result ≡ leb slot (slots_of entries.now) }
{
    slot < entries.len() / WORDS
}

// The words of an entry table.
pub fn entry_length(slots: usize) -> usize
    requires { slots ≤ 65535 }
    ensures { result ≡ entry_length slots }
{
    WORDS * (slots + 1)
}

// Whether the table has all words of slot 0 and of each of 1 to 65,535 slots.
pub fn entries_fit(entries: &[u32]) -> bool
    ensures { result ≡ entries_fit entries.now }
{
    let n = slot_count(entries);
    (entries.len() == WORDS * (n + 1)) & ((1 <= n) & (n <= MOST))
}

// Writes all words of one slot.
fn set_slot(e: &mut [u32], slot: usize, link: u32, span: u32, tally: Tally, stamp: u32)
    requires { InTable e.old slot }
    ensures { e.new ≡ set_slot e.old slot (record { link = link; span = span; tally = tally; stamp = stamp }) }
{
    e[WORDS * slot] = link;
    e[WORDS * slot + 1] = span;
    set_tally(e, slot, tally, stamp);
}
