// Reads a line of the script: a letter, then numbers, each after one blank.
#![tactic(auto)]

ghost use Rattle.std.specs.Prelude.{◌≡◌};
ghost use Rattle.script_lines.specs.Lines.{line_of};

use script_fields::read_fields;

// What a line asks for; `lo` and `hi` are the first key and the last.
#[derive(Clone, Copy)]
pub enum Command {
    Make {
        slots: u32,
        deepest: u32,
        ratio: u32,
        buffer: u32,
        term: u32,
    },
    Put {
        clock: u32,
        key: u32,
        count: u32,
        price: u32,
    },
    Delete {
        clock: u32,
        key: u32,
    },
    DeleteRange {
        clock: u32,
        lo: u32,
        hi: u32,
    },
    DeleteRangeDated {
        clock: u32,
        lo: u32,
        hi: u32,
        date: u32,
    },
    Flush {
        clock: u32,
    },
    Tick {
        clock: u32,
    },
    Lookup {
        key: u32,
    },
}

// Reads a line, which is given without its line feed; none where it has no form. Each form has its arm, with as many numbers as it names.
pub fn read_line(text: &[u8]) -> Option<Command>
    ensures { result ≡ line_of text.now }
{
    match text.first()? {
        // `M N L T B D`
        b'M' => {
            let [slots, deepest, ratio, buffer, term] = read_fields::<5>(text, 1)?;
            Some(Command::Make {
                slots,
                deepest,
                ratio,
                buffer,
                term,
            })
        }
        // `P t k v p`
        b'P' => {
            let [clock, key, count, price] = read_fields::<4>(text, 1)?;
            Some(Command::Put {
                clock,
                key,
                count,
                price,
            })
        }
        // `D t k`
        b'D' => {
            let [clock, key] = read_fields::<2>(text, 1)?;
            Some(Command::Delete { clock, key })
        }
        // `R t lo hi`
        b'R' => {
            let [clock, lo, hi] = read_fields::<3>(text, 1)?;
            Some(Command::DeleteRange { clock, lo, hi })
        }
        // `Y t lo hi s`
        b'Y' => {
            let [clock, lo, hi, date] = read_fields::<4>(text, 1)?;
            Some(Command::DeleteRangeDated {
                clock,
                lo,
                hi,
                date,
            })
        }
        // `F t`
        b'F' => {
            let [clock] = read_fields::<1>(text, 1)?;
            Some(Command::Flush { clock })
        }
        // `T t`
        b'T' => {
            let [clock] = read_fields::<1>(text, 1)?;
            Some(Command::Tick { clock })
        }
        // `G k`
        b'G' => {
            let [key] = read_fields::<1>(text, 1)?;
            Some(Command::Lookup { key })
        }
        _ => None,
    }
}
