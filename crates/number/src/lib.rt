// Numbers in groups of seven bits: the reader, the width and the writer that sheets and images share.
// What a value may be in its field is not asked here, nor whether a padded number is allowed, nor which refusal number a caller reports.
#![tactic(auto)]

ghost use Rattle.std.specs.Prelude.{◌≡◌, ◌++◌, ◌+◌, ◌*◌, ◌≤◌, ◌<◌, length, drop};
ghost use Rattle.number.specs.Number.{fewest, judged, decode, encode, written, used, written_at, used_at};

// The largest number: 2^64 - 1.
const LARGEST: u64 = 18446744073709551615;

// A number that stands at a place: its value, how many bytes were read and whether they were the fewest.
#[derive(Clone, Copy)]
pub struct Number {
    pub value: u64,
    pub used: usize,
    pub fewest: bool,
}

// Whether a number with this many groups and this last group takes the fewest bytes: otherwise its last group is empty, and it is padded.
fn is_fewest(count: usize, last: u64) -> bool
    ensures { result ≡ fewest count last }
{
    count == 1 || 0 < last
}

// The number that a last group ends, after so many earlier groups of the given value. The last one counts for `scale`.
// The test by division is the one that can't overflow.
fn with_last(earlier: usize, scale: u64, value: u64, last: u64) -> Option<Number>
    requires { (earlier < 10) × (0 < scale) }
    ensures { result ≡ judged (earlier + 1) last (value + last * scale) }
{
    if (LARGEST - value) / scale < last {
        return None;
    }
    let used = earlier + 1;
    let fewest = is_fewest(used, last);
    Some(Number {
        value: value + last * scale,
        used,
        fewest,
    })
}

// The groups at a place of some bytes. The place may lie past the end: then no number is there.
// The next group counts for `scale`. No more than ten groups are looked at, so nothing overflows.
fn read_groups(bytes: &[u8], at: usize) -> Option<Number>
    ensures { result ≡ decode bytes.now at }
{
    let mut i = at;
    let mut count: usize = 0;
    let mut scale: u64 = 1;
    let mut value: u64 = 0;
    loop {
        let byte = u64::from(*bytes.get(i)?);
        if byte < 128 {
            return with_last(count, scale, value, byte);
        }
        if count == 9 {
            return None;
        }
        value += byte % 128 * scale;
        scale *= 128;
        count += 1;
        i += 1;
    }
}

// The number at a place of some bytes. Most numbers have one group, which is the value. Put into its callers, its answer stands in no memory:
// handed back through it, numbers of several groups took so long that the largest images were read in up to 1.6 times the time.
#[inline(always)]
pub fn read_number(bytes: &[u8], at: usize) -> Option<Number>
    ensures { result ≡ decode bytes.now at }
{
    let byte = u64::from(*bytes.get(at)?);
    if byte < 128 {
        return Some(Number {
            value: byte,
            used: 1,
            fewest: true,
        });
    }
    read_groups(bytes, at)
}

// The fewest bytes of a number, which writing takes.
pub fn number_width(n: u64) -> usize
    ensures { result ≡ length (encode n) }
{
    let mut rest = n;
    let mut i: usize = 0;
    while 128 <= rest {
        rest /= 128;
        i += 1;
    }
    i + 1
}

// Writes the groups of a number over the front of a part that has room for them.
fn write_groups(part: &mut [u8], n: u64)
    requires { length (encode n) ≤ length part.old }
    ensures { part.new ≡ encode n ++ drop (length (encode n)) part.old }
{
    let mut rest = n;
    let mut i: usize = 0;
    while 128 <= rest {
        part[i] = (128 + rest % 128) as u8;
        rest /= 128;
        i += 1;
    }
    part[i] = rest as u8;
}

// Writes a number over the front of a part, and answers how many bytes it used.
// A part that is too short stays as it is, and the answer is none.
pub fn write_number(part: &mut [u8], n: u64) -> Option<usize>
    ensures { (result ≡ used part.old n) × (part.new ≡ written part.old n) }
{
    let width = number_width(n);
    if part.len() < width {
        return None;
    }
    write_groups(part, n);
    Some(width)
}

// Writes a number into what remains of a buffer from a cursor on, and answers how many bytes it used.
// Where it does not fit, or the cursor lies past the end, the buffer stays as it is, and the answer is none.
pub fn write_number_at(image: &mut [u8], at: usize, n: u64) -> Option<usize>
    ensures { (result ≡ used_at image.old at n) × (image.new ≡ written_at image.old at n) }
{
    if image.len() < at {
        return None;
    }
    write_number(&mut image[at..], n)
}
