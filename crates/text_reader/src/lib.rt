// Reading a text by a sheet in one call: writes a sheet's image, which checks the sheet, and runs it over a text. Its promise is the sheet's own answer;
// how an image is written and run is other crates' business.
#![tactic(auto)]

ghost use Rattle.std.specs.Prelude.{◌≡◌, length};
ghost use Rattle.image.specs.Check.{work_after};
ghost use Rattle.image.specs.Write.{write, image_after};
ghost use Rattle.text_reader.specs.Reading.{told, reading, stack_after_reading, OwnReading, line_of};
ghost use Rattle.text_reader.specs.Program.{program_line, OwnLine};

use image_writer::WriteError;
use lines::Line;
use machine_turn::RunAnswer;
use sheet_reader::Refusal;

// Writes a sheet's image and runs it over a text of at most `limit` bytes: the sheet is refused, or the text has an answer. A longer text
// is 12, once the sheet has passed.
pub fn read_text(
    sheet: &[u8],
    text: &[u8],
    limit: usize,
    work: &mut [u8],
    image: &mut [u8],
    stack: &mut [u8],
) -> Result<RunAnswer, Refusal>
    ensures { (told result ≡ reading limit (write sheet.now (length work.old) (length image.old))
        text.now stack.old)
        × (image.new ≡ image_after
        (write sheet.now (length work.old) (length image.old)) image.old)
        × (work.new ≡ work_after work.old)
        × (stack.new ≡ stack_after_reading limit
        (write sheet.now (length work.old) (length image.old)) text.now stack.old)
        × OwnReading limit sheet.now text.now (length work.old) (length image.old)
        (length stack.old) (told result) }
{
    let size = match image_writer::write(sheet, work, image) {
        Ok(size) => size,
        Err(WriteError::Refused(refusal)) => return Err(refusal),
        Err(WriteError::TooLong(_)) => {
            return Err(Refusal {
                question: 11,
                place: 0,
            });
        }
    };
    if limit < text.len() {
        return Ok(machine_turn::answer(12, 0, 0));
    }
    Ok(image_runner::run(&image[..size], text, stack))
}

// The line for what was read.
pub fn line_for(read: Result<RunAnswer, Refusal>) -> Line
    ensures { result ≡ line_of (told read) }
{
    match read {
        Err(refusal) => Line::Sheet(refusal.question, refusal.place),
        Ok(answer) => {
            if answer.number == 0 {
                return Line::Accepted(answer.count);
            }
            Line::Text(answer.number, answer.place)
        }
    }
}

// The longest text that the program takes, and what it lends.
pub const MOST_PROGRAM_TEXT: usize = 2048;

const PROGRAM_WORK: usize = 65536;

const PROGRAM_ROOM: usize = 65536;

// What the program loads of each file: one byte more than is allowed tells that it is too long (`loaded_enough`).
pub const LOADED_SHEET: usize = sheet_checker::MOST_SHEET_BYTES + 1;

pub const LOADED_TEXT: usize = MOST_PROGRAM_TEXT + 1;

const PROGRAM_ENTRIES: usize = 1 + normal_form::MOST_GROWTH * MOST_PROGRAM_TEXT;

// The program's line with these buffers, whatever they hold. As arrays they have known lengths here.
fn line_with(
    sheet: &[u8],
    text: &[u8],
    work: &mut [u8; PROGRAM_WORK],
    image: &mut [u8; PROGRAM_ROOM],
    stack: &mut [u8; PROGRAM_ENTRIES],
) -> Line
    ensures { (result ≡ program_line sheet.now text.now)
        × OwnLine sheet.now text.now result }
{
    let read = read_text(sheet, text, MOST_PROGRAM_TEXT, work, image, stack);
    line_for(read)
}

// The program's line for a sheet and a text.
pub fn program_line(sheet: &[u8], text: &[u8]) -> Line
    ensures { (result ≡ program_line sheet.now text.now)
        × OwnLine sheet.now text.now result }
{
    let mut work = [0u8; PROGRAM_WORK];
    let mut image = [0u8; PROGRAM_ROOM];
    let mut stack = [0u8; PROGRAM_ENTRIES];
    line_with(sheet, text, &mut work, &mut image, &mut stack)
}
