// Hexadecimal digits, the byte that two of them make, and where the next line starts: how the files of vectors are read.
// What stands in a line is its reader's business.
#![tactic(auto)]

ghost use Rattle.std.specs.Prelude.{◌≡◌, ◌+◌, ◌≤◌, ◌<◌, length, IsSome};
ghost use Rattle.hex_lines.specs.Hex.{digit_value, byte_there};
ghost use Rattle.hex_lines.specs.LineEnds.{line_length, after_line};

// The value of a hexadecimal digit. Capitals are no digits here.
#[tactic(auto, using(std::proofs::lemmas::Bool::Decides::nat_tests), unfolding(crate::specs::Hex::digit_value))]
pub fn digit(c: u8) -> Option<u8>
    ensures { result ≡ digit_value c }
{
    match c {
        b'0'..=b'9' => Some(c - b'0'),
        b'a'..=b'f' => Some(c - b'a' + 10),
        _ => None,
    }
}

// The byte that two digits make at a place.
pub fn byte_at(text: &[u8], at: usize) -> Option<u8>
    ensures byte { result ≡ byte_there text.now at }
    ensures inside { IsSome result → at + 1 < length text.now }
{
    let high = digit(*text.get(at)?)?;
    let low = digit(*text.get(at + 1)?)?;
    Some(high * 16 + low)
}

// How many bytes the first line of a text has, with its line end where it has one.
fn first_line(text: &[u8]) -> usize
    ensures length { result ≡ line_length text.now }
    ensures inside { result ≤ length text.now }
    ensures onward { 0 < length text.now → 0 < result }
{
    match text.iter().position(|&c| c == b'\n') {
        Some(n) => n + 1,
        None => text.len(),
    }
}

// The place after the next line end, or the end of the text.
pub fn next_line(text: &[u8], at: usize) -> usize
    requires { at < length text.now }
    ensures place { result ≡ after_line text.now at }
    ensures onward { at < result }
    ensures inside { result ≤ length text.now }
{
    at + first_line(&text[at..])
}
