// The settings of a store, checked once, and each level's limit and capacity worked out from them.
#![tactic(auto)]

ghost use Rattle.std.specs.Prelude.{◌≡◌, true, ◌+◌, ◌≤◌, ◌<◌};
ghost use Rattle.settings.specs.Limits.{within, allowed, power, capacity, limit};
ghost use Rattle.settings.specs.Checked.{checked_of, level_from, limit_of, capacity_of};
ghost use Rattle.settings.specs.Carried.{at_level, Carried};

use refusals::Refusal;

// Document 01's ranges of L, T, B and D.
const DEEPEST_LOW: u32 = 2;

const DEEPEST_HIGH: u32 = 6;

const RATIO_LOW: u32 = 2;

const RATIO_HIGH: u32 = 10;

const BUFFER_LOW: u32 = 1;

const BUFFER_HIGH: u32 = 64;

const TERM_LOW: u32 = 1;

const TERM_HIGH: u32 = 4294967295;

// L, T, B and D of document 01.
#[derive(Clone, Copy)]
pub struct Settings {
    pub deepest: u32,
    pub ratio: u32,
    pub buffer: u32,
    pub term: u32,
}

// The settings at a level, carried down from the level above: "the power carried" is T^i, multiplied once it is T^(i+1), the level
// below's; T^L − 1 divides every limit.
#[derive(Clone, Copy)]
pub struct LevelSettings {
    pub settings: Settings,
    pub level: u32,
    pub power: u64,
    pub below: u64,
    pub divisor: u64,
}

fn in_range(low: u32, x: u32, high: u32) -> bool
    ensures { result ≡ within low x high }
{
    low <= x && x <= high
}

impl Settings {
    // Refused here, so that no store is made with settings out of range.
    pub fn new(deepest: u32, ratio: u32, buffer: u32, term: u32) -> Result<Settings, Refusal>
        ensures { result ≡ checked_of (record { deepest = deepest; ratio = ratio; buffer = buffer; term = term }) }
    {
        let settings = Settings {
            deepest,
            ratio,
            buffer,
            term,
        };
        if settings.is_allowed() {
            Ok(settings)
        } else {
            Err(Refusal::Settings)
        }
    }

    // A level's limit in ticks; level L and settings that are not allowed have none.
    pub fn limit(self, level: u32) -> Option<u64>
        ensures { result ≡ limit_of self level }
    {
        if self.is_level_from(0, level) {
            Some(self.at_level(level).limit())
        } else {
            None
        }
    }

    // A level's capacity in records; the buffer has none either.
    pub fn capacity(self, level: u32) -> Option<u64>
        ensures { result ≡ capacity_of self level }
    {
        if self.is_level_from(1, level) {
            Some(self.at_level(level).capacity())
        } else {
            None
        }
    }

    // The settings at a level, worked out whole; those of the level below it are `next`.
    pub fn at_level(self, level: u32) -> LevelSettings
        requires self_value { allowed self ≡ true }
        requires level_lt_deepest { level < self.deepest }
        ensures { result ≡ at_level self level }
    {
        let last = self.power(self.deepest);
        let power = self.power(level);
        LevelSettings {
            settings: self,
            level,
            power,
            below: power * self.ratio as u64,
            divisor: last - 1,
        }
    }

    fn is_allowed(self) -> bool
        ensures { result ≡ allowed self }
    {
        in_range(DEEPEST_LOW, self.deepest, DEEPEST_HIGH)
            && in_range(RATIO_LOW, self.ratio, RATIO_HIGH)
            && in_range(BUFFER_LOW, self.buffer, BUFFER_HIGH)
            && in_range(TERM_LOW, self.term, TERM_HIGH)
    }

    // The settings are asked first: with an L of 0 the subtraction would wrap.
    fn is_level_from(self, low: u32, level: u32) -> bool
        ensures { result ≡ level_from low self level }
    {
        self.is_allowed() && in_range(low, level, self.deepest - 1)
    }

    // T^i; a level is shallow enough that no product wraps.
    fn power(self, i: u32) -> u64
        requires self_value { allowed self ≡ true }
        requires i_le_deepest { i ≤ self.deepest }
        ensures { result ≡ power self i }
    {
        (self.ratio as u64).pow(i)
    }
}

impl LevelSettings {
    // The settings at the level below: multiplied once.
    pub fn next(self) -> LevelSettings
        requires { Carried self }
        ensures { result ≡ at_level self.settings (self.level + 1) }
    {
        let below = self.below * self.settings.ratio as u64;
        LevelSettings {
            level: self.level + 1,
            power: self.below,
            below,
            ..self
        }
    }

    // The level's limit in ticks.
    pub fn limit(self) -> u64
        requires { Carried self }
        ensures { result ≡ limit self.settings self.level }
    {
        let share = self.below - 1;
        // In 64 bits, since D × (T^(i+1) − 1) can pass 32.
        let product = self.settings.term as u64 * share;
        product / self.divisor
    }

    // The level's capacity in records.
    pub fn capacity(self) -> u64
        requires { Carried self }
        ensures { result ≡ capacity self.settings self.level }
    {
        self.settings.buffer as u64 * self.power
    }
}
