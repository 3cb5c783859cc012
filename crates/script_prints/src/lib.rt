// Prints what a line of the script answers: three numbers in decimal, or four.
#![tactic(auto)]

ghost use Rattle.std.specs.Prelude.{◌≡◌, ◌+◌, ◌*◌, ◌≤◌, length};
ghost use Rattle.script_prints.specs.Texts.{decimal_text, field_text, numbers_of, numbers_text, overwrite};

// The least number of two digits.
const TWO_DIGITS: u32 = 10;

// The numbers that a line prints.
#[derive(Clone, Copy)]
pub enum Printed {
    Three(u32, u32, u32),
    Four(u32, u32, u32, u32),
}

// Prints the numbers of a line from a position on, one blank between them and a line feed at the end. Answers the position after them.
// What is printed into is a slice of any length, as the contract has it, and no buffer with its count: over one of so much room the digits'
// recursion gets no proof.
pub fn print_numbers(out: &mut [u8], at: usize, printed: Printed) -> usize
    requires { at + 44 ≤ length out.old }
    ensures value { result ≡ at + length (numbers_text (numbers_of printed)) }
    ensures out_after { out.new ≡ overwrite out.old at (numbers_text (numbers_of printed)) }
{
    match printed {
        Printed::Three(first, second, third) => print_all(out, at, &[first, second, third]),
        Printed::Four(first, second, third, fourth) => {
            print_all(out, at, &[first, second, third, fourth])
        }
    }
}

// Prints numbers, each with the byte that ends it.
fn print_all(out: &mut [u8], at: usize, numbers: &[u32]) -> usize
    requires { at + 11 * length numbers.now ≤ length out.old }
    ensures value { result ≡ at + length (numbers_text numbers.now) }
    ensures out_after { out.new ≡ overwrite out.old at (numbers_text numbers.now) }
{
    let mut end = at;
    for (i, number) in numbers.iter().enumerate() {
        let ending = if i + 1 < numbers.len() { b' ' } else { b'\n' };
        end = print_field(out, end, *number, ending);
    }
    end
}

// Prints a number and the byte that ends it.
fn print_field(out: &mut [u8], at: usize, number: u32, ending: u8) -> usize
    requires { at + 11 ≤ length out.old }
    ensures value { result ≡ at + length (field_text number ending) }
    ensures out_after { out.new ≡ overwrite out.old at (field_text number ending) }
{
    let end = print_digits(out, at, number);
    out[end] = ending;
    end + 1
}

// Prints the digits of a number: those of its tenth part, if it has more than one, then the last.
fn print_digits(out: &mut [u8], at: usize, number: u32) -> usize
    requires { at + length (decimal_text number) ≤ length out.old }
    ensures value { result ≡ at + length (decimal_text number) }
    ensures out_after { out.new ≡ overwrite out.old at (decimal_text number) }
{
    let last = if TWO_DIGITS <= number {
        print_digits(out, at, number / 10)
    } else {
        at
    };
    out[last] = b'0' + (number % 10) as u8;
    last + 1
}
