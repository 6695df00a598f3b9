// Outside vectors through the library: reads the files `sheets` (checked, and then written), `read`, `run`, `table`, `program` and
// `recognise`, a case a line, and prints a line for each. Lent buffers are filled with a pattern first, and a line also says whether they
// ended as they must. Nothing is promised here: what the library does is in the contracts of the crates that are called.
#![tactic(auto)]

ghost use Rattle.std.specs.Prelude.{◌≤◌, length};
ghost use Rattle.io.specs.Counts.{IsPrefixLen};

use hex_lines::{byte_at, next_line};
use image_writer::WriteError;
use lines::Line;
use machine_turn::RunAnswer;
use sheet_reader::Refusal;
use std::io;
use std::rt::Files;
use text_recogniser::Recognition;

const PATTERN: u8 = 165;

// The most bytes that a field may have.
const FIELD: usize = 8192;

// The buffers, of which a case may lend a part; and how much of the work area is cleared.
const WORK: usize = 70000;

const CLEARED: usize = 65536;

const IMAGE: usize = 65536;

const STACK: usize = 1024;

const TABLE: usize = 65600;

const WINNERS: usize = 300;

// What the table and the winners hold before a run: no row and no rule has this number.
const UNWRITTEN: u16 = 42405;

// The entries of a row.
const ROW: usize = 256;

// What a case shows that asks for longer buffers than there are: no run gives this number.
const NOT_LENT: RunAnswer = RunAnswer {
    number: 255,
    place: 0,
    count: 0,
};

const MOST_TEXT: usize = 1048576;

// A stack that is long enough for a text of 2,048 bytes.
const LONG_STACK: usize = 1 + normal_form::MOST_GROWTH * 2048;

// The number that some bytes begin with, of five digits at most.
fn decimal(bytes: &[u8]) -> usize {
    let mut value: usize = 0;
    for c in bytes {
        if !c.is_ascii_digit() || 9999 < value {
            return value;
        }
        value = value * 10 + usize::from(*c - b'0');
    }
    value
}

// Puts the bytes that some text begins with into a buffer, and answers how many there are.
fn put_bytes(text: &[u8], buffer: &mut [u8]) -> usize
    ensures { IsPrefixLen result buffer.new }
{
    for i in 0..buffer.len() {
        let Some(byte) = byte_at(text, 2 * i) else {
            return i;
        };
        buffer[i] = byte;
    }
    buffer.len()
}

// The fields of a line: numbers in decimal and bytes in hexadecimal, each with a blank after it. A `-` stands for no bytes. Nothing
// here judges a file that is written otherwise: its lines are other cases.
#[derive(Clone, Copy)]
struct Fields<'a> {
    rest: &'a [u8],
}

impl<'a> Fields<'a> {
    // Goes past the next blank, or to the end.
    fn skip(&mut self) {
        let past = match self.rest.iter().position(|c| *c == b' ') {
            Some(blank) => blank + 1,
            None => self.rest.len(),
        };
        self.rest = &self.rest[past..];
    }

    // The number of the next field.
    fn number(&mut self) -> usize {
        let value = decimal(self.rest);
        self.skip();
        value
    }

    // Puts the bytes of the next field into a buffer, and answers how many there are.
    fn bytes(&mut self, buffer: &mut [u8]) -> usize
        ensures { IsPrefixLen result buffer.new }
    {
        let count = put_bytes(self.rest, buffer);
        self.skip();
        count
    }
}

// The end of a line: whether the lent buffers ended as they must.
fn show_judgement<R: Print>(rt: &R, right: bool) -> io::Result<()> {
    let word = if right { "right" } else { "wrong" };
    println!(rt; " {word}")
}

// The three numbers of an answer.
fn show_answer<R: Print>(rt: &R, answer: RunAnswer) -> io::Result<()> {
    print!(rt; "{} {} {}", answer.number, answer.place, answer.count)
}

// A blank, and then each of the first bytes as two digits.
fn show_front<R: Print>(rt: &R, bytes: &[u8], count: usize) -> io::Result<()> {
    print!(rt; " ")?;
    for byte in bytes.iter().take(count) {
        print!(rt; "{byte:02x}")?;
    }
    Ok(())
}

// Whether the bytes from one place to another are all there, and each is the given one. A fold, which has no early exit, is vectorized:
// `all` would take most of the program's time.
fn all_are(bytes: &[u8], from: usize, to: usize, value: u8) -> bool {
    match bytes.get(from..to) {
        Some(part) => part.iter().fold(0, |bits, byte| bits | (*byte ^ value)) == 0,
        None => false,
    }
}

// The work area ends as it must: its first 65,536 bytes zero and the others as they were, or all as they were after 1.
fn work_right(number: u8, work: &[u8]) -> bool {
    if number == 1 {
        return all_are(work, 0, WORK, PATTERN);
    }
    all_are(work, 0, CLEARED, 0) && all_are(work, CLEARED, WORK, PATTERN)
}

// The image buffer, or the list of tokens, past what was written is as it was, and the work area ends as it must.
fn buffers_right(number: u8, written: usize, work: &[u8], buffer: &[u8]) -> bool {
    all_are(buffer, written, IMAGE, PATTERN) && work_right(number, work)
}

// What checking answered: number and place, and whether the work area ended as it must.
fn show_checked<R: Print>(rt: &R, checked: Result<(), Refusal>, work: &[u8]) -> io::Result<()> {
    let (number, place) = match checked {
        Err(refusal) => (refusal.question, refusal.place),
        Ok(()) => (0, 0),
    };
    print!(rt; "{number} {place}")?;
    show_judgement(rt, work_right(number, work))
}

// A case: the length of the work area, that of the image buffer, and the sheet. Checking has no image buffer.
fn check_case<R: Print>(rt: &R, mut fields: Fields) -> io::Result<()> {
    let mut sheet = [0u8; FIELD];
    let mut work = [PATTERN; WORK];
    let work_size = fields.number();
    fields.skip();
    let sheet_size = fields.bytes(&mut sheet);
    let Some(lent) = work.get_mut(..work_size) else {
        return Ok(());
    };
    let checked = sheet_checker::check(&sheet[..sheet_size], lent);
    show_checked(rt, checked, &work)
}

// What writing answered: number, place and length, and on success the image.
fn show_written<R: Print>(
    rt: &R,
    written: Result<usize, WriteError>,
    work: &[u8],
    image: &[u8],
) -> io::Result<()> {
    let (number, place, size, length) = match written {
        Err(WriteError::Refused(refusal)) => (refusal.question, refusal.place, 0, 0),
        Err(WriteError::TooLong(needed)) => (11, 0, 0, needed),
        Ok(size) => (0, 0, size, size),
    };
    print!(rt; "{number} {place} {length}")?;
    if number == 0 {
        show_front(rt, image, size)?;
    }
    show_judgement(rt, buffers_right(number, size, work, image))
}

// A case, with the image buffer.
fn write_case<R: Print>(rt: &R, mut fields: Fields) -> io::Result<()> {
    let mut sheet = [0u8; FIELD];
    let mut work = [PATTERN; WORK];
    let mut image = [PATTERN; IMAGE];
    let work_size = fields.number();
    let image_size = fields.number();
    let sheet_size = fields.bytes(&mut sheet);
    let Some(lent_work) = work.get_mut(..work_size) else {
        return Ok(());
    };
    let Some(lent_image) = image.get_mut(..image_size) else {
        return Ok(());
    };
    let written = image_writer::write(&sheet[..sheet_size], lent_work, lent_image);
    show_written(rt, written, &work, &image)
}

// After 12, 13, 18 and 19 the lent part of the stack is as it was, and otherwise all zero; the rest is as it was.
fn stack_right(number: u8, size: usize, stack: &[u8]) -> bool {
    let left = if matches!(number, 12 | 13 | 18 | 19) {
        PATTERN
    } else {
        0
    };
    all_are(stack, 0, size, left) && all_are(stack, size, STACK, PATTERN)
}

// Runs an image over a text with the front of the stack.
fn run_front(image: &[u8], input: &[u8], stack_size: usize, stack: &mut [u8]) -> RunAnswer {
    match stack.get_mut(..stack_size) {
        Some(lent) => image_runner::run(image, input, lent),
        None => NOT_LENT,
    }
}

// And shows the answer, and whether the stack ended as it must.
fn show_run<R: Print>(rt: &R, image: &[u8], input: &[u8], stack_size: usize) -> io::Result<()> {
    let mut stack = [PATTERN; STACK];
    let ran = run_front(image, input, stack_size, &mut stack);
    show_answer(rt, ran)?;
    show_judgement(rt, stack_right(ran.number, stack_size, &stack))
}

// A case: the length of the stack, the image, and the text.
fn run_case<R: Print>(rt: &R, mut fields: Fields) -> io::Result<()> {
    let mut image = [0u8; FIELD];
    let mut input = [0u8; FIELD];
    let stack_size = fields.number();
    let image_size = fields.bytes(&mut image);
    let input_size = fields.bytes(&mut input);
    show_run(rt, &image[..image_size], &input[..input_size], stack_size)
}

// A long text, by no image. It comes as an array, so that its length is known from its type.
fn show_long_run<R: Print, const N: usize>(rt: &R, input: &[u8; N]) -> io::Result<()> {
    show_run(rt, b"", input, STACK)
}

// The checksum of entries is the 64-bit FNV-1a, each entry as two bytes, the low one first. It starts at this number.
const CHECKSUM_OF_NONE: u64 = 14695981039346656037;

// FNV's prime, 2^40 + 435, by which each step multiplies.
const PRIME: u64 = 1099511628211;

// A checksum with one byte more.
fn with_byte(sum: u64, byte: u8) -> u64 {
    (sum ^ u64::from(byte)).wrapping_mul(PRIME)
}

// The checksum of the first entries.
fn checksum(entries: &[u16], count: usize) -> u64 {
    let mut sum = CHECKSUM_OF_NONE;
    for entry in entries.iter().take(count) {
        let [low, high] = entry.to_le_bytes();
        sum = with_byte(with_byte(sum, low), high);
    }
    sum
}

// How many winners were written: those before the first that is as it was.
fn rows_written(winners: &[u16]) -> usize
    ensures { result ≤ length winners.now }
{
    let first = winners.iter().position(|winner| *winner == UNWRITTEN);
    first.unwrap_or(winners.len())
}

// Whether all entries from a place on are as they were, by a fold for the same reason.
fn rest_unwritten(entries: &[u16], from: usize) -> bool {
    let rest = entries.get(from..).unwrap_or(&[]).iter();
    rest.fold(0, |bits, entry| bits | (*entry ^ UNWRITTEN)) == 0
}

// Each of the first entries in decimal, with a blank before it.
fn show_entries<R: Print>(rt: &R, entries: &[u16], count: usize) -> io::Result<()> {
    for entry in entries.iter().take(count) {
        print!(rt; " {entry}")?;
    }
    Ok(())
}

// What was written: the count of rows, the checksum of their entries, and their winners. Tells whether all past them is as it was.
fn show_table<R: Print>(rt: &R, table: &[u16], winners: &[u16]) -> io::Result<bool>
    requires { length winners.now ≤ 300 }
{
    let rows = rows_written(winners);
    let entries = rows * ROW;
    let sum = checksum(table, entries);
    print!(rt; " {rows} {sum:016x}")?;
    show_entries(rt, winners, rows)?;
    Ok(rest_unwritten(winners, rows) && rest_unwritten(table, entries))
}

// Whether running without a table gives the same answer, and leaves the stack as it must.
fn same_without(image: &[u8], input: &[u8], stack_size: usize, expected: RunAnswer) -> bool {
    let mut stack = [PATTERN; STACK];
    let ran = run_front(image, input, stack_size, &mut stack);
    ran == expected && stack_right(ran.number, stack_size, &stack)
}

// The answer is that of a run without a table, but for 18 and 19.
fn answer_right(image: &[u8], input: &[u8], stack_size: usize, ran: RunAnswer) -> bool {
    matches!(ran.number, 18 | 19) || same_without(image, input, stack_size, ran)
}

// How much of each buffer a run with a table is lent.
#[derive(Clone, Copy)]
struct Lent {
    table: usize,
    winners: usize,
    stack: usize,
}

// Runs an image over a text with the front of each buffer.
fn run_table_front(
    image: &[u8],
    input: &[u8],
    lent: Lent,
    table: &mut [u16],
    winners: &mut [u16],
    stack: &mut [u8],
) -> Option<RunAnswer> {
    let table = table.get_mut(..lent.table)?;
    let winners = winners.get_mut(..lent.winners)?;
    let stack = stack.get_mut(..lent.stack)?;
    Some(image_runner::run_table(image, input, table, winners, stack))
}

// Runs an image over a text with a table, and shows the answer, what was written, and whether all ended as it must: stack and answer are
// right, and what lies past the rows was kept.
fn show_table_run<R: Print>(rt: &R, image: &[u8], input: &[u8], lent: Lent) -> io::Result<()> {
    let mut table = [UNWRITTEN; TABLE];
    let mut winners = [UNWRITTEN; WINNERS];
    let mut stack = [PATTERN; STACK];
    let ran = run_table_front(image, input, lent, &mut table, &mut winners, &mut stack).unwrap_or(
        NOT_LENT,
    );
    show_answer(rt, ran)?;
    let kept = show_table(rt, &table, &winners)?;
    let right = kept
        && stack_right(ran.number, lent.stack, &stack)
        && answer_right(image, input, lent.stack, ran);
    show_judgement(rt, right)
}

// A case: the lengths of the table, of the winners and of the stack, the image, and the text.
fn table_case<R: Print>(rt: &R, mut fields: Fields) -> io::Result<()> {
    let mut image = [0u8; FIELD];
    let mut input = [0u8; FIELD];
    let table = fields.number();
    let winners = fields.number();
    let stack = fields.number();
    let image_size = fields.bytes(&mut image);
    let input_size = fields.bytes(&mut input);
    let lent = Lent {
        table,
        winners,
        stack,
    };
    show_table_run(rt, &image[..image_size], &input[..input_size], lent)
}

// A long text, by no image, with a table of this length.
fn show_long_table_run<R: Print, const N: usize>(
    rt: &R,
    input: &[u8; N],
    table: usize,
) -> io::Result<()> {
    let lent = Lent {
        table,
        winners: 256,
        stack: STACK,
    };
    show_table_run(rt, b"", input, lent)
}

// What reading a text by a sheet gave: a refusal of the sheet has no count.
fn show_read<R: Print>(rt: &R, read: Result<RunAnswer, Refusal>) -> io::Result<()> {
    match read {
        Err(refusal) => print!(rt; "{} {} 0", refusal.question, refusal.place)?,
        Ok(answer) => show_answer(rt, answer)?,
    }
    println!(rt)
}

// A case: the sheet, and the text. There is as much room as the program lends.
fn read_case<R: Print>(rt: &R, mut fields: Fields) -> io::Result<()> {
    let mut sheet = [0u8; FIELD];
    let mut input = [0u8; FIELD];
    let mut work = [0u8; 65536];
    let mut image = [0u8; IMAGE];
    let mut stack = [0u8; LONG_STACK];
    let sheet_size = fields.bytes(&mut sheet);
    let input_size = fields.bytes(&mut input);
    let read = text_reader::read_text(
        &sheet[..sheet_size],
        &input[..input_size],
        MOST_TEXT,
        &mut work,
        &mut image,
        &mut stack,
    );
    show_read(rt, read)
}

// A line, as the program prints it.
fn show_line<R: Print>(rt: &R, line: Line) -> io::Result<()> {
    let mut buffer = [0u8; lines::MOST_LINE];
    let size = lines::write_line(line, &mut buffer);
    rt.write_all(&buffer[..size])
}

// A case: the sheet, and the text, as the program would read them.
fn program_case<R: Print>(rt: &R, mut fields: Fields) -> io::Result<()> {
    let mut sheet = [0u8; FIELD];
    let mut input = [0u8; FIELD];
    let sheet_size = fields.bytes(&mut sheet);
    let input_size = fields.bytes(&mut input);
    let line = text_reader::program_line(&sheet[..sheet_size], &input[..input_size]);
    show_line(rt, line)
}

// What recognising answered, the tokens written, and whether the buffers ended as they must.
fn show_recognition<R: Print>(
    rt: &R,
    told: Recognition,
    work: &[u8],
    list: &[u8],
) -> io::Result<()> {
    print!(rt; "{} {} {}", told.number, told.place, told.count)?;
    show_front(rt, list, told.count)?;
    show_judgement(rt, buffers_right(told.number, told.count, work, list))
}

// A case: the lengths of the work area and of the list, the sheet, and the text.
fn recognise_case<R: Print>(rt: &R, mut fields: Fields) -> io::Result<()> {
    let mut sheet = [0u8; FIELD];
    let mut input = [0u8; FIELD];
    let mut work = [PATTERN; WORK];
    let mut list = [PATTERN; IMAGE];
    let work_size = fields.number();
    let list_size = fields.number();
    let sheet_size = fields.bytes(&mut sheet);
    let input_size = fields.bytes(&mut input);
    let Some(lent_work) = work.get_mut(..work_size) else {
        return Ok(());
    };
    let Some(lent_list) = list.get_mut(..list_size) else {
        return Ok(());
    };
    let told = text_recogniser::recognise(
        &sheet[..sheet_size],
        &input[..input_size],
        lent_work,
        lent_list,
    );
    show_recognition(rt, told, &work, &list)
}

// Prints a line for each line of a text.
fn show_cases<R: Print, F: Fn(&R, Fields) -> io::Result<()>>(
    rt: &R,
    text: &[u8],
    show_case: F,
) -> io::Result<()>
    requires { F.IsAlwaysCallable show_case }
{
    let mut at: usize = 0;
    while at < text.len() {
        show_case(rt, Fields { rest: &text[at..] })?;
        at = next_line(text, at);
    }
    Ok(())
}

// And of a file.
fn show_file<R: Files + Print, F: Fn(&R, Fields) -> io::Result<()>>(
    rt: &R,
    name: &str,
    show_case: F,
) -> io::Result<()>
    requires { F.IsAlwaysCallable show_case }
{
    let mut text = [0u8; 65536];
    let Some(size) = loader::load(rt, name, &mut text) else {
        return println!(rt; "no file");
    };
    show_cases(rt, &text[..size], show_case)
}

// Texts that are one byte too long, and as long as may be, have no image to be run by: that is the refusal of the latter. A table that is too
// short is asked for first.
fn main(rt: HostRuntime) -> io::Result<()> {
    let too_long = [0u8; MOST_TEXT + 1];
    let longest = [0u8; MOST_TEXT];
    show_file(&rt, "sheets", check_case)?;
    show_file(&rt, "sheets", write_case)?;
    show_file(&rt, "read", read_case)?;
    show_file(&rt, "run", run_case)?;
    show_long_run(&rt, &too_long)?;
    show_long_run(&rt, &longest)?;
    show_file(&rt, "table", table_case)?;
    show_long_table_run(&rt, &too_long, 65536)?;
    show_long_table_run(&rt, &too_long, 65535)?;
    show_long_table_run(&rt, &longest, 65536)?;
    show_file(&rt, "program", program_case)?;
    show_file(&rt, "recognise", recognise_case)
}
