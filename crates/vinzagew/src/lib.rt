// The library for other languages: checking, writing, running and recognising with plain parameters. A buffer passes as a pointer and
// a length. Nothing is worked out here.
#![tactic(auto)]

ghost use Rattle.std.specs.Prelude.{◌≡◌, [], ◌∷◌, ◌≤◌, length};
ghost use Rattle.image.specs.Answer.{numbers_of};
ghost use Rattle.image.specs.Check.{checked};
ghost use Rattle.image.specs.Write.{wrote};
ghost use Rattle.sheet_checker.specs.Answer as checker;
ghost use Rattle.image_writer.specs.Answer as compiler;
ghost use Rattle.machine.specs.Lent.{stack_alone, with_scanner};
ghost use Rattle.machine.specs.Run.{run};
ghost use Rattle.machine_turn.specs.Steps.{answer_held};
ghost use Rattle.recogniser.specs.Recognise.{recognised};
ghost use Rattle.text_recogniser.specs.Ends as recogniser;
ghost use Rattle.vinzagew.specs.Out.{numbers_held, out_after, if_room};

use image_writer::WriteError;
use machine_turn::RunAnswer;
use sheet_reader::Refusal;
use text_recogniser::Recognition;

// The three numbers of an answer. The third is a length, a count of tokens, or 0 where there is neither.
#[derive(Clone, Copy)]
struct Numbers {
    number: u64,
    place: u64,
    amount: u64,
}

fn three(number: u64, place: u64, amount: u64) -> Numbers
    ensures { numbers_held result ≡ number ∷ place ∷ amount ∷ [] }
{
    Numbers {
        number,
        place,
        amount,
    }
}

// A refused sheet has no length.
impl From<Refusal> for Numbers {
    ghost from_gives = { λ refusal numbers. numbers_held numbers ≡ refusal.question ∷ refusal.place ∷ 0 ∷ [] };

    fn from(refusal: Refusal) -> Numbers {
        three(u64::from(refusal.question), refusal.place as u64, 0)
    }
}

// Checking has no length.
impl From<Result<(), Refusal>> for Numbers {
    ghost from_gives = { λ checked numbers. numbers_held numbers ≡ numbers_of (checker.answer_of checked) };

    fn from(checked: Result<(), Refusal>) -> Numbers {
        match checked {
            Ok(()) => three(0, 0, 0),
            Err(refusal) => Numbers::from(refusal),
        }
    }
}

// Document 01's number, place and length for each way in which writing ends.
impl From<Result<usize, WriteError>> for Numbers {
    ghost from_gives = { λ written numbers. numbers_held numbers ≡ numbers_of (compiler.answer_of written) };

    fn from(written: Result<usize, WriteError>) -> Numbers {
        match written {
            Ok(length) => three(0, 0, length as u64),
            Err(error) => match error {
                WriteError::TooLong(needed) => three(11, 0, needed as u64),
                WriteError::Refused(refusal) => Numbers::from(refusal),
            },
        }
    }
}

// "Running returns number, place, tokens taken"
impl From<RunAnswer> for Numbers {
    ghost from_gives = { λ ran numbers. numbers_held numbers ≡ numbers_of (answer_held ran) };

    fn from(ran: RunAnswer) -> Numbers {
        three(u64::from(ran.number), ran.place as u64, ran.count as u64)
    }
}

// "It returns as running does, with the count of tokens written"
impl From<Recognition> for Numbers {
    ghost from_gives = { λ told numbers. numbers_held numbers ≡ numbers_of (recogniser.answer_held told) };

    fn from(told: Recognition) -> Numbers {
        three(u64::from(told.number), told.place as u64, told.count as u64)
    }
}

// Puts three numbers at the front of `out`, which has room for them.
fn put(out: &mut [u64], told: Numbers)
    requires { 3 ≤ length out.old }
    ensures { out.new ≡ out_after (numbers_held told) out.old }
{
    out[0] = told.number;
    out[1] = told.place;
    out[2] = told.amount;
}

// Checks a sheet, with a lent work area, and puts number, place and 0 into `out`. Where `out` has fewer than three entries, nothing
// happens.
#[unsafe(no_mangle)]
pub extern "C" fn vinzagew_check(sheet: &[u8], work: &mut [u8], out: &mut [u64])
    ensures { (out.new ≡ out_after
        (numbers_of (checked sheet.now work.old).answer)
        out.old)
        × (work.new ≡ if_room out.old
        (checked sheet.now work.old).work
        work.old) }
{
    if out.len() < 3 {
        return;
    }
    let checked = sheet_checker::check(sheet, work);
    put(out, Numbers::from(checked));
}

// Checks a sheet and writes its image into the image buffer, with a lent work area, and puts number, place and length into `out`. Where
// `out` has fewer than three entries, nothing happens.
#[unsafe(no_mangle)]
pub extern "C" fn vinzagew_write(sheet: &[u8], work: &mut [u8], image: &mut [u8], out: &mut [u64])
    ensures { (out.new ≡ out_after
        (numbers_of (wrote sheet.now work.old image.old).answer)
        out.old)
        × (image.new ≡ if_room out.old
        (wrote sheet.now work.old image.old).image
        image.old)
        × (work.new ≡ if_room out.old
        (wrote sheet.now work.old image.old).work
        work.old) }
{
    if out.len() < 3 {
        return;
    }
    let written = image_writer::write(sheet, work, image);
    put(out, Numbers::from(written));
}

// Runs an image over a text with a lent stack, and puts number, place and count into `out`. Where `out` has fewer than three
// entries, nothing happens.
#[unsafe(no_mangle)]
pub extern "C" fn vinzagew_run(image: &[u8], text: &[u8], stack: &mut [u8], out: &mut [u64])
    ensures { (out.new ≡ out_after
        (numbers_of (run image.now text.now (stack_alone stack.old)).answer)
        out.old)
        × (stack_alone stack.new ≡ if_room out.old
        (run image.now text.now (stack_alone stack.old)).left
        (stack_alone stack.old)) }
{
    if out.len() < 3 {
        return;
    }
    let ran = image_runner::run(image, text, stack);
    put(out, Numbers::from(ran));
}

// Runs an image over a text with a lent table, winners and stack, and puts number, place and count into `out`. Where `out` has fewer than
// three entries, nothing happens.
#[unsafe(no_mangle)]
pub extern "C" fn vinzagew_run_table(
    image: &[u8],
    text: &[u8],
    table: &mut [u16],
    winners: &mut [u16],
    stack: &mut [u8],
    out: &mut [u64],
)
    ensures { (out.new ≡ out_after
        (numbers_of (run image.now text.now
        (with_scanner stack.old table.old winners.old)).answer)
        out.old)
        × (with_scanner stack.new table.new winners.new ≡ if_room out.old
        (run image.now text.now
        (with_scanner stack.old table.old winners.old)).left
        (with_scanner stack.old table.old winners.old)) }
{
    if out.len() < 3 {
        return;
    }
    let ran = image_runner::run_table(image, text, table, winners, stack);
    put(out, Numbers::from(ran));
}

// Recognises a text by a sheet, with a lent work area and a lent list for the tokens, and puts number, place and count into `out`. Where
// `out` has fewer than three entries, nothing happens.
#[unsafe(no_mangle)]
pub extern "C" fn vinzagew_recognise(
    sheet: &[u8],
    text: &[u8],
    work: &mut [u8],
    list: &mut [u8],
    out: &mut [u64],
)
    ensures { (out.new ≡ out_after
        (numbers_of (recognised sheet.now text.now work.old list.old).answer)
        out.old)
        × (list.new ≡ if_room out.old
        (recognised sheet.now text.now work.old list.old).list
        list.old)
        × (work.new ≡ if_room out.old
        (recognised sheet.now text.now work.old list.old).work
        work.old) }
{
    if out.len() < 3 {
        return;
    }
    let recognition = text_recogniser::recognise(sheet, text, work, list);
    put(out, Numbers::from(recognition));
}
