// Writing a sheet's image: the sheet is checked, its rules are put into the image's order, then question 11 is put, and then the image is
// written into its buffer. Questions 1 to 10 are the checker's, and no earlier verdict is trusted.
#![tactic(auto)]

ghost use Rattle.std.specs.Prelude.{◌≡◌, length, Err};
ghost use Rattle.sheet.specs.Sheet.{Sheet};
ghost use Rattle.image.specs.Image.{plain_image, image_bytes};
ghost use Rattle.image.specs.Answer.{numbers_of};
ghost use Rattle.image.specs.Check.{work_after};
ghost use Rattle.image.specs.Write.{fitted, write, write_answer, image_after, written_part};
ghost use Rattle.sheet_checker.specs.Steps.{PassedParts};
ghost use Rattle.node_numbering.specs.Grammar.{GrammarOf};
ghost use Rattle.image_writer.specs.Answer.{answer_of, case_of, Ends};
ghost use Rattle.image_writer.specs.declared.WriteError.TheVariants.{Refused};

use node_numbering::Grammar;
use sheet_checker::CheckedSheet;
use sheet_reader::Refusal;

// Every image fits in so many bytes (`image_fits`).
const ROOM_FOR_ANY: usize = 65536;

// Why nothing was written: the image does not fit (11), and needs so many bytes; or a question fails, 1 to 10.
#[derive(Clone, Copy)]
pub enum WriteError {
    TooLong(usize),
    Refused(Refusal),
}

impl From<Refusal> for WriteError {
    ghost from_gives = { λ refusal error. error ≡ Refused refusal };

    fn from(refusal: Refusal) -> WriteError {
        WriteError::Refused(refusal)
    }
}

// The columns from which productions are found.
fn grammar_of(checked: CheckedSheet) -> Grammar
    requires { (s : Sheet) × PassedParts s checked }
    ensures { (s : Sheet) → PassedParts s checked → GrammarOf result s.rules s.expression }
{
    node_numbering::grammar_from(checked.rules, checked.links, checked.types)
}

// Question 11, asked before the first byte is written, and the image, with the rules numbered as they stand in the columns. In a buffer
// of so many bytes every image fits, so the image is measured only for a shorter one.
fn write_if_fits(checked: CheckedSheet, image: &mut [u8]) -> Result<usize, WriteError>
    requires { (s : Sheet) × PassedParts s checked }
    ensures { (s : Sheet) → PassedParts s checked
        → Ends (fitted (length image.old) (image_bytes (plain_image s))) result image.old image.new }
{
    let positions = position_finder::positions_of(checked.rules);
    let grammar = grammar_of(checked);
    if image.len() < ROOM_FOR_ANY {
        let needed = image_encoder::image_width(grammar, positions);
        if image.len() < needed {
            return Err(WriteError::TooLong(needed));
        }
    }
    Ok(image_encoder::write_image(image, grammar, positions))
}

// Checks a sheet and writes its image into the image buffer: the bytes written, or why none were. `answer_of` has document 01's number,
// place and length for each answer.
pub fn write(sheet: &[u8], work: &mut [u8], image: &mut [u8]) -> Result<usize, WriteError>
    ensures { (result ≡ case_of (write sheet.now (length work.old) (length image.old)))
        × (image.new ≡ image_after
        (write sheet.now (length work.old) (length image.old)) image.old)
        × (work.new ≡ work_after work.old)
        × (answer_of result ≡ write_answer (write sheet.now (length work.old) (length image.old))) }
{
    let checked = sheet_checker::check_sheet(sheet, work)?;
    let ordered = sheet_checker::in_image_order(checked);
    write_if_fits(ordered, image)
}

// The three numbers of an error.
fn numbers_of(error: WriteError) -> [usize; 3]
    ensures { result ≡ numbers_of (answer_of (Err error)) }
{
    match error {
        WriteError::TooLong(needed) => [11, 0, needed],
        WriteError::Refused(refusal) => [usize::from(refusal.question), refusal.place, 0],
    }
}

// The same, and hands back the written part of the image buffer, which is empty where writing refused. The answer is number, place and
// length. What the image buffer holds behind the part is left open here, since the part is still lent; `write` fixes it.
// A part and three numbers, and no Result: REFERENCE 12 has the part empty after a refusal.
pub fn write_part<'a>(
    sheet: &[u8],
    work: &mut [u8],
    image: &'a mut [u8],
    answer: &mut [usize; 3],
) -> &'a mut [u8]
    ensures { (result.now ≡ written_part (write sheet.now (length work.old) (length image.old)))
        × (answer.new ≡ numbers_of
        (write_answer (write sheet.now (length work.old) (length image.old))))
        × (work.new ≡ work_after work.old) }
{
    let written = write(sheet, work, image);
    match written {
        Ok(length) => {
            *answer = [0, 0, length];
            &mut image[..length]
        }
        Err(error) => {
            *answer = numbers_of(error);
            &mut image[..0]
        }
    }
}
