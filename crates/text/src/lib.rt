// The texts of rpmcrun's lines: the number that a line gives, and each line that is printed.
//
// Contracts cite specs/. Each function takes any input. A line is lent, and filled anew whatever it holds: an answer by value has its
// room copied at each call on the way, which took twice the instructions of a short line.

#![tactic(auto)]

ghost use Rattle.std.specs.Prelude.{◌≡◌, ◌+◌, ◌*◌, ◌%◌, ◌<◌, ◌≤◌, [], ◌∷◌, ◌++◌, IfSome, length};
ghost use Rattle.arrayvec.specs.ArrayVec.{array_vec_len};
ghost use Rattle.hexadecimal.specs.Hex.{digits_of_all};
ghost use Rattle.text.specs.Numbers.{value_of, with_digit, number_with, number_in};
ghost use Rattle.text.specs.Printing.{newline, decimal, count_line, number_line, work_line, fitting_read_line, unknown_line};

use arrayvec::ArrayVec;

// A line that is printed, with its newline: at most 517 characters.
pub type Line = ArrayVec<u8, 517>;

// The value of a digit's character.
#[tactic(auto, unfolding(crate::specs::Numbers::value_of, words::specs::Choice::pick))]
fn value_of(character: u8) -> Option<u32>
    ensures value { result ≡ value_of character }
    ensures bound { IfSome result (λ digit. digit < 10) }
{
    char::from(character).to_digit(10)
}

// A number with one more digit behind it.
#[tactic(auto, unfolding(crate::specs::Numbers::with_digit, words::specs::Choice::pick))]
fn with_digit(number: u32, digit: u32) -> Option<u32>
    requires { digit < 10 }
    ensures { result ≡ with_digit number digit }
{
    match number {
        1..=99 => Some(10 * number + digit),
        _ => None,
    }
}

// A number with the digits of a text behind it, or none.
#[tactic(auto, unfolding(crate::specs::Numbers::number_with))]
fn number_with(mut number: u32, text: &[u8]) -> Option<u32>
    ensures { result ≡ number_with number text.now }
{
    for character in text {
        number = with_digit(number, value_of(*character)?)?;
    }
    Some(number)
}

// The number that a text is, or none.
#[tactic(auto, unfolding(crate::specs::Numbers::number_in))]
pub fn number_in(text: &[u8]) -> Option<u32>
    ensures { result ≡ number_in text.now }
{
    let (first, more) = text.split_first()?;
    number_with(value_of(*first)?, more)
}

// The character of a number's last decimal digit.
//
// kept: `char::from_digit` gives a char, which would be made a byte again.
fn last_digit(n: u32) -> u8
    ensures { result ≡ 48 + n % 10 }
{
    b'0' + (n % 10) as u8
}

// Appends a text that there is room for.
fn append(text: &[u8], line: &mut Line)
    requires { array_vec_len line.old + length text.now ≤ 517 }
    ensures { line.new.items ≡ line.old.items ++ text.now }
{
    line.try_extend_from_slice(text).unwrap();
}

// Fills a line with a text that there is room for.
fn fill(text: &[u8], line: &mut Line)
    requires { length text.now ≤ 517 }
    ensures { line.new.items ≡ text.now }
{
    line.clear();
    append(text, line);
}

// Fills a line with a text and a number in decimal digits behind it.
// kept: the digits are made here. `decimal` has the last two digits of a number above 99 too, where `itoa` prints all of them.
#[tactic(auto, unfolding(crate::specs::Printing::decimal, words::specs::Choice::pick))]
fn decimal_line(front: &[u8], n: u32, line: &mut Line)
    requires { length front.now + 3 ≤ 517 }
    ensures { line.new.items ≡ front.now ++ decimal n ++ newline ∷ [] }
{
    fill(front, line);
    if 10 <= n {
        line.push(last_digit(n / 10));
    }
    append(&[last_digit(n), b'\n'], line);
}

// The first line, the count.
#[tactic(auto, unfolding(crate::specs::Printing::count_line))]
pub fn count_line(count: u32, line: &mut Line)
    ensures { line.new.items ≡ count_line count }
{
    decimal_line(b"counters ", count, line);
}

// `?`.
pub fn unknown_line(line: &mut Line)
    ensures { line.new.items ≡ unknown_line }
{
    fill(b"?\n", line);
}

// A letter and the answer number.
#[tactic(auto, unfolding(crate::specs::Printing::number_line))]
pub fn number_line(letter: u8, number: u32, line: &mut Line)
    ensures { line.new.items ≡ number_line letter number }
{
    fill(&[letter, b' ', last_digit(number), b'\n'], line);
}

// The answer number and the steps of a work call.
#[tactic(auto, unfolding(crate::specs::Printing::work_line))]
pub fn work_line(number: u32, steps: u32, line: &mut Line)
    ensures { line.new.items ≡ work_line number steps }
{
    let front = [b'S', b' ', last_digit(number), b' '];
    decimal_line(&front, steps, line);
}

// Appends bytes in hexadecimal digits, at most 256 that there is room for.
#[tactic(auto, using(hexadecimal::proofs::Written::digits_front, hexadecimal::proofs::Written::digits_fit))]
fn append_digits(bytes: &[u8], line: &mut Line)
    requires { (length bytes.now ≤ 256) × (array_vec_len line.old + 2 * length bytes.now ≤ 517) }
    ensures items { line.new.items ≡ line.old.items ++ digits_of_all bytes.now }
    ensures len { array_vec_len line.new ≡ array_vec_len line.old + 2 * length bytes.now }
{
    let mut digits = [0; 512];
    hexadecimal::write(bytes, &mut digits);
    append(&digits[..2 * bytes.len()], line);
}

// The answer number and the bytes of a read, or `?` where they are more than 256.
#[tactic(auto, unfolding(crate::specs::Printing::fitting_read_line, crate::specs::Printing::read_line, words::specs::Choice::pick))]
pub fn read_line(number: u32, bytes: &[u8], line: &mut Line)
    ensures { line.new.items ≡ fitting_read_line number bytes.now }
{
    if 256 < bytes.len() {
        return unknown_line(line);
    }
    fill(&[b'R', b' ', last_digit(number), b' '], line);
    append_digits(bytes, line);
    line.push(b'\n');
}
