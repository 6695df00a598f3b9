// Reads the file `numbers`, a vector a line as hexadecimal bytes, and prints what the reader makes of each: value, bytes used and whether
// they are the same as are written or padded; or `refused`. Nothing is promised here: what reading and writing do is in the contracts of
// `number`.
#![tactic(auto)]

ghost use Rattle.std.specs.Prelude.{◌≤◌, length};

use number::Number;
use std::io;

// Puts the bytes at the start of a line, each of two digits and a blank, into a buffer, and answers how many there are.
fn line_bytes(text: &[u8], at: usize, bytes: &mut [u8; 32]) -> usize
    requires { (at ≤ length text.now) × (length text.now ≤ 8192) }
    ensures { result ≤ 32 }
{
    for (count, slot) in bytes.iter_mut().enumerate() {
        let Some(byte) = hex_lines::byte_at(text, at + 3 * count) else {
            return count;
        };
        *slot = byte;
    }
    bytes.len()
}

// Whether a value has this width, is written as these bytes where they just fit, and is refused where one byte is lacking.
fn comes_back(bytes: &[u8], value: u64, used: usize) -> bool
    requires { (used ≤ length bytes.now) × (used ≤ 10) × (1 ≤ used) }
{
    let mut image = [0u8; 12];
    let start = 12 - used;
    number::number_width(value) == used
        && number::write_number_at(&mut image, start, value) == Some(used)
        && number::write_number_at(&mut image, start + 1, value).is_none()
        && image[start..] == bytes[..used]
}

// Prints what the reader makes of some bytes; `different` where what it said and what was written disagree.
fn report<R: Print>(rt: &R, bytes: &[u8]) -> io::Result<()> {
    let Some(
        Number {
            value,
            used,
            fewest,
        },
    ) = number::read_number(bytes, 0)
    else {
        return rt.write_all(b"refused\n");
    };
    let word = match (fewest, comes_back(bytes, value, used)) {
        (true, true) => "same",
        (false, false) => "padded",
        _ => "different",
    };
    print!(rt; "{value} {used} {word}\n")
}

// Prints what the reader makes of a line. Of more than 32 bytes the first 32 count, which is past the ten that matter.
fn report_line<R: Print>(rt: &R, text: &[u8], at: usize) -> io::Result<()>
    requires { (at ≤ length text.now) × (length text.now ≤ 8192) }
{
    let mut bytes = [0u8; 32];
    let count = line_bytes(text, at, &mut bytes);
    report(rt, &bytes[..count])
}

// Prints a line for each line of the text.
fn report_all<R: Print>(rt: &R, text: &[u8]) -> io::Result<()>
    requires { length text.now ≤ 8192 }
{
    let mut at: usize = 0;
    while at < text.len() {
        report_line(rt, text, at)?;
        at = hex_lines::next_line(text, at);
    }
    Ok(())
}

fn main(rt: HostRuntime) -> io::Result<()> {
    let mut text = [0u8; 8192];
    let Some(size) = loader::load(&rt, "numbers", &mut text) else {
        return rt.write_all(b"no file\n");
    };
    report_all(&rt, &text[..size])
}
