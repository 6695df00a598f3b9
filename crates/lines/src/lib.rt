// The line that the program prints, as bytes at the front of a lent buffer. Which line it is and
// where it is printed is the callers' business.
#![tactic(auto)]

ghost use Rattle.std.specs.Prelude.{◌≡◌, [], ◌∷◌, ◌++◌, ◌+◌, ◌≤◌, ◌<◌, length, drop};
ghost use Rattle.number.specs.Number.{splice};
ghost use Rattle.lines.specs.Decimal.{decimal};
ghost use Rattle.lines.specs.Lines.{numbers_bytes, line_bytes};

// A line: a refused sheet or a refused text with number and place, or an accepted text with its
// count of tokens.
#[derive(Clone, Copy)]
pub enum Line {
    Sheet(u8, usize),
    Text(u8, usize),
    Accepted(usize),
}

// The most bytes that a line has: `sheet`, two blanks, 3 and 20 digits, and the line end.
pub const MOST_LINE: usize = 31;

// Puts a byte at a place of the buffer, and answers the place after it.
fn put_byte(buffer: &mut [u8], at: usize, byte: u8) -> usize
    requires { at < length buffer.old }
    ensures { (result ≡ at + 1) × (buffer.new ≡ splice buffer.old at (byte ∷ [])) }
{
    buffer[at] = byte;
    at + 1
}

// The same for the bytes of a word, from the buffer's front on.
fn put_word(buffer: &mut [u8], word: &[u8]) -> usize
    requires { length word.now ≤ length buffer.old }
    ensures { (result ≡ length word.now)
        × (buffer.new ≡ splice buffer.old 0 word.now) }
{
    buffer[..word.len()].copy_from_slice(word);
    word.len()
}

// And for the digits of a number.
fn put_decimal(buffer: &mut [u8], at: usize, n: u64) -> usize
    requires { at + length (decimal n) ≤ length buffer.old }
    ensures { (result ≡ at + length (decimal n))
        × (buffer.new ≡ splice buffer.old at (decimal n)) }
{
    let digit = b'0' + (n % 10) as u8;
    if n < 10 {
        return put_byte(buffer, at, digit);
    }
    let last = put_decimal(buffer, at, n / 10);
    put_byte(buffer, last, digit)
}

// A blank, and the digits of a number.
fn put_number(buffer: &mut [u8], at: usize, n: u64) -> usize
    requires { at + length (32 ∷ decimal n) ≤ length buffer.old }
    ensures { (result ≡ at + length (32 ∷ decimal n))
        × (buffer.new ≡ splice buffer.old at (32 ∷ decimal n)) }
{
    let next = put_byte(buffer, at, b' ');
    put_decimal(buffer, next, n)
}

// A line of a word and numbers, from the buffer's front on.
fn put_line(buffer: &mut [u8], word: &[u8], numbers: &[u64]) -> usize
    requires { length (word.now ++ numbers_bytes numbers.now) ≤ length buffer.old }
    ensures { (result ≡ length (word.now ++ numbers_bytes numbers.now))
        × (buffer.new ≡ splice buffer.old 0
        (word.now ++ numbers_bytes numbers.now)) }
{
    let mut at = put_word(buffer, word);
    for n in numbers {
        at = put_number(buffer, at, *n);
    }
    put_byte(buffer, at, b'\n')
}

// Writes a line over the front of a buffer in which every line has room, and answers how many bytes
// it has. The rest of the buffer stays.
pub fn write_line(line: Line, buffer: &mut [u8; MOST_LINE]) -> usize
    ensures { (result ≡ length (line_bytes line))
        × (buffer.new ≡ line_bytes line
        ++ drop (length (line_bytes line)) buffer.old) }
{
    match line {
        Line::Sheet(number, place) => {
            put_line(buffer, b"sheet", &[u64::from(number), place as u64])
        }
        Line::Text(number, place) => {
            put_line(buffer, b"text", &[u64::from(number), place as u64])
        }
        Line::Accepted(count) => put_line(buffer, b"accepted", &[count as u64]),
    }
}
