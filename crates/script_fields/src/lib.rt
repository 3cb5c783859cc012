// Reads the fields of a line: numbers, each after one blank. A position is handed on beside the line, since an answer tells where its field ends.
#![tactic(auto)]

ghost use Rattle.std.specs.Prelude.{◌≡◌, ◌≤◌, length, take, drop};
ghost use Rattle.script_fields.specs.Numbers.{digits, decimal};
ghost use Rattle.script_fields.specs.Fields.{number_of, field_of, numbers_of};

// The most digits that a number is written in.
const MOST_DIGITS: usize = 10;

// Of how many bytes the digits are counted: one more than a number has, so that a text of any length is read no farther.
const ENOUGH: usize = 11;

// What is read at a position: a number and the position after it.
#[derive(Clone, Copy)]
pub struct Field {
    pub number: u32,
    pub end: usize,
}

// The numbers of so many fields from a position on, after which nothing stands.
pub fn read_fields<const N: usize>(text: &[u8], start: usize) -> Option<[u32; N]>
    ensures { result ≡ numbers_of N (drop start text.now) }
{
    let mut numbers = [0; N];
    let mut at = start;
    for number in &mut numbers {
        let field = read_field(text, at)?;
        *number = field.number;
        at = field.end;
    }
    if at < text.len() { None } else { Some(numbers) }
}

// One blank and the number after it.
pub fn read_field(text: &[u8], at: usize) -> Option<Field>
    ensures { result ≡ field_of at (drop at text.now) }
{
    if *text.get(at)? == b' ' {
        read_number(text, at + 1)
    } else {
        None
    }
}

// The digits from a position on, one to ten of them.
fn read_number(text: &[u8], start: usize) -> Option<Field>
    ensures { result ≡ number_of start (digits (drop start text.now)) }
{
    let rest = text.get(start..)?;
    let near = nearest(rest);
    let count = count_digits(near);
    if count == 0 || MOST_DIGITS < count {
        return None;
    }
    let value = value_of(&near[..count]);
    let number = u32::try_from(value).ok()?;
    Some(Field {
        number,
        end: start + count,
    })
}

// The first bytes, enough to tell a number from more digits than it has.
fn nearest(bytes: &[u8]) -> &[u8]
    ensures { result.now ≡ take 11 bytes.now }
{
    bytes.get(..ENOUGH).unwrap_or(bytes)
}

// How many digits the bytes begin with.
fn count_digits(bytes: &[u8]) -> usize
    ensures { result ≡ length (digits bytes.now) }
{
    bytes
        .iter()
        .position(|byte| !byte.is_ascii_digit())
        .unwrap_or(bytes.len())
}

// What at most ten digits make. A u64 holds ten times the largest number, so that nothing wraps.
fn value_of(written: &[u8]) -> u64
    requires all { digits written.now ≡ written.now }
    requires few { length written.now ≤ 10 }
    ensures { result ≡ decimal 0 written.now }
{
    let mut value = 0;
    for digit in written {
        value = 10 * value + u64::from(*digit - b'0');
    }
    value
}
