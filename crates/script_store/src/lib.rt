// A store in memory for 3,275 slots and 6 levels, and the calls on it, each with the numbers that it prints.
#![tactic(auto)]

ghost use Rattle.std.specs.Prelude.{◌≡◌, ◌≢◌, ◌↔◌, ℕ, ◌≤◌, IsTrue, replicate};
ghost use Rattle.refusals.specs.Numbers.{refusal_of, numbered};
ghost use Rattle.lookup.specs.Lookup.{answer_of};
ghost use Rattle.call_op.specs.Ops.{op_of};
ghost use Rattle.script_prints.specs.Texts.{numbers_of};
ghost use Rattle.script_store.specs.Memory.{level_room, answers_alone, makes, does, finds};
ghost use Rattle.script_store.specs.Coded.{Room, memory, answering, counting, finding};

use call_any::call;
use call_end::Answer;
use call_op::Op;
use lookup::lookup;
use lookup_level::Found;
use make::make;
use model::Tally;
use refusals::Refusal;
use script_prints::Printed;
use table_levels::level_length;
use table_slots::entry_length;

// The most slots of a store in a script.
const MOST_SLOTS: u32 = 3275;

// The deepest level that a store can have.
const DEEPEST: u32 = 6;

// How large the store is; no slots where none was made. That is no Option, since `Memory.slots` and `is_early` of specs/ have that 0 too, and
// `run_call` and `run_lookup` promise what they answer at a size of no slots.
#[derive(Clone, Copy)]
pub struct Size {
    pub slots: usize,
    pub deepest: usize,
    pub ghost few: { slots ≤ 3275 },
    pub ghost shallow: { deepest ≤ 6 },
}

// Room for the two tables, of which the store takes the first words.
#[derive(Drop)]
pub struct Store {
    pub entries: [u32; 16380],
    pub levels: [u32; 32],
    pub size: Size,
}

impl Store {
    ghost use Rattle.script_store.specs.Stores.{memory_of, stepped_to};

    // Room of zeros, and no store yet.
    pub fn new() -> Store
        ensures entries { result.entries ≡ replicate 16380 0 }
        ensures levels { result.levels ≡ replicate 32 0 }
        ensures no_slots { result.size.slots ≡ 0 }
        ensures no_levels { result.size.deepest ≡ 0 }
    {
        Store {
            entries: [0; 16380],
            levels: [0; 32],
            size: Size {
                slots: 0,
                deepest: 0,
            },
        }
    }

    // Whether a store was made.
    pub fn is_made(&self) -> bool
        ensures { IsTrue result ↔ self.now.size.slots ≢ 0 }
    {
        self.size.slots != 0
    }

    // Makes the store anew; a refused making leaves the store there was.
    pub fn run_make(
        &mut self,
        slots: u32,
        deepest: u32,
        ratio: u32,
        buffer: u32,
        term: u32,
    ) -> Printed
        ensures { stepped_to self.new result ≡
            makes slots (record { deepest = deepest; ratio = ratio; buffer = buffer; term = term }) (memory_of self.old) }
    {
        if MOST_SLOTS < slots {
            return alone(Refusal::Line.number());
        }
        match make_in(
            &mut self.entries,
            &mut self.levels,
            slots,
            deepest,
            ratio,
            buffer,
            term,
        ) {
            Ok(()) => {
                self.size = Size {
                    slots: slots as usize,
                    deepest: deepest as usize,
                };
                alone(0)
            }
            Err(refusal) => alone(refusal.number()),
        }
    }

    // A timed call, and what it prints.
    pub fn run_call(&mut self, clock: u32, op: Op) -> Printed
        ensures { stepped_to self.new result ≡ does (record { clock = clock; op = op_of op }) (memory_of self.old) }
    {
        counted(call_in(&mut self.entries, &mut self.levels, self.size, clock, op))
    }

    // Looks one key up, and prints four numbers.
    pub fn run_lookup(&self, key: u32) -> Printed
        ensures { stepped_to self.now result ≡ finds key (memory_of self.now) }
    {
        let words = entry_length(self.size.slots);
        let rows = level_length(self.size.deepest);
        looked_up(lookup(&self.entries[..words], &self.levels[..rows], key))
    }
}

// Makes a store in the first words of the room; refused with the room as it was. The two arrays come apart, here and in `call_in`: slices of two
// fields behind one `&mut self` get no proof.
fn make_in(
    entries: &mut [u32],
    levels: &mut [u32],
    slots: u32,
    deepest: u32,
    ratio: u32,
    buffer: u32,
    term: u32,
) -> Result<(), Refusal>
    requires room { Room entries.old levels.old }
    requires few { slots ≤ 3275 }
    ensures refused { refusal_of result ≢ 0 → (n d : ℕ) →
        answers_alone (refusal_of result) (memory entries.new levels.new n d) ≡
        makes slots (record { deepest = deepest; ratio = ratio; buffer = buffer; term = term }) (memory entries.old levels.old n d) }
    ensures accepted { refusal_of result ≡ 0 → (n d : ℕ) →
        answers_alone 0 (memory entries.new levels.new slots deepest) ≡
        makes slots (record { deepest = deepest; ratio = ratio; buffer = buffer; term = term }) (memory entries.old levels.old n d) }
    ensures shallow { refusal_of result ≡ 0 → deepest ≤ 6 }
{
    let words = entry_length(slots as usize);
    let rows = level_room(deepest);
    make(
        &mut entries[..words],
        &mut levels[..rows],
        deepest,
        ratio,
        buffer,
        term,
    )
}

// A timed call on the store that the first words of the room hold.
fn call_in(
    entries: &mut [u32],
    levels: &mut [u32],
    size: Size,
    clock: u32,
    op: Op,
) -> Result<Answer, Refusal>
    requires { Room entries.old levels.old }
    ensures { record { memory = memory entries.new levels.new size.slots size.deepest; printed = numbers_of (counting result) } ≡
        does (record { clock = clock; op = op_of op }) (memory entries.old levels.old size.slots size.deepest) }
{
    let words = entry_length(size.slots);
    let rows = level_length(size.deepest);
    call(&mut entries[..words], &mut levels[..rows], clock, op)
}

// A number with two zeros.
pub fn alone(first: u32) -> Printed
    ensures { result ≡ answering first }
{
    Printed::Three(first, 0, 0)
}

// What a timed call answers.
pub fn counted(answer: Result<Answer, Refusal>) -> Printed
    ensures { result ≡ counting answer }
{
    match answer {
        Ok(answer) => Printed::Three(0, answer.merges, answer.purged),
        Err(refusal) => alone(refusal.number()),
    }
}

// What a lookup answers: the number of its refusal, whether the key is found, its count and its price.
fn looked_up(answer: Result<Option<Found<Tally>>, Refusal>) -> Printed
    ensures { result ≡ finding (answer_of (numbered answer)) }
{
    match answer {
        Ok(Some(found)) => Printed::Four(0, 1, found.shown.count, found.shown.price),
        Ok(None) => Printed::Four(0, 0, 0, 0),
        Err(refusal) => Printed::Four(refusal.number(), 0, 0, 0),
    }
}

// The words of the level table that a making is lent; where no store can be made, as many as there are.
fn level_room(deepest: u32) -> usize
    ensures { result ≡ level_room deepest }
{
    level_length(deepest.min(DEEPEST) as usize)
}
