// Running an image over a text with all that a run is lent: a stack, and a table with its winners if the run is to build one. Questions 18,
// 12 and 19 are answered here, question 13 by the image reader, the others by the turns.
#![tactic(auto)]

ghost use Rattle.std.specs.Prelude.{◌≡◌, ◌≤◌, length, replicate};
ghost use Rattle.image.specs.Image.{Image};
ghost use Rattle.machine.specs.Lent.{stack_alone, with_scanner};
ghost use Rattle.machine.specs.Run.{trace, run};
ghost use Rattle.machine.specs.Trace.{answer_of};
ghost use Rattle.machine_turn.specs.Steps.{answer_held};
ghost use Rattle.machine_loop.specs.Prepared.{WithTables};
ghost use Rattle.image_runner.specs.Lending.{ran};
ghost use Rattle.image_runner.specs.Reading.{machine_of, ReadFor};

use image_reader::ImageRead;
use machine_loop::{Machine, ScannerTable};
use machine_turn::RunAnswer;

// The longest text that is read, and the entries that a table and its winners must have.
const MOST_TEXT_BYTES: usize = 1048576;

const TABLE_ENTRIES: usize = 65536;

const WINNER_ENTRIES: usize = 256;

// Reads an image into tables that are all zero, for a run over a text; or the answer 12 or 13. It is called from two places, as the run is, so
// that the compiler leaves it a function of its own: short texts are read faster then.
fn read_for(
    image: &[u8],
    text: &[u8],
    tables: &mut [u64; 448],
    productions: &mut [u16; 2048],
) -> Result<ImageRead, RunAnswer>
    requires { (tables.old ≡ replicate 448 0) × (productions.old ≡ replicate 2048 0) }
    ensures { ReadFor image.now text.now result tables.new productions.new }
{
    if MOST_TEXT_BYTES < text.len() {
        return Err(machine_turn::answer(12, 0, 0));
    }
    match image_reader::read_image(image, tables, productions) {
        Ok(read) => Ok(read),
        Err(refused) => Err(machine_turn::answer(13, refused.place, 0)),
    }
}

// Runs a readable image over a text, by its tables.
fn run_read<'a>(
    image: &'a [u8],
    read: ImageRead,
    tables: &'a [u64; 448],
    productions: &'a [u16; 2048],
    scanner: Option<ScannerTable<'a>>,
    text: &'a [u8],
    stack: &mut [u8],
) -> RunAnswer
    requires { (length text.now ≤ 1048576)
        × ((i : Image) × WithTables (machine_of image read tables productions scanner) i) }
    ensures { (stack.new ≡ replicate (length stack.old) 0) × ((i : Image)
        → WithTables (machine_of image.entry read tables.entry productions.entry scanner.entry) i
        → answer_held result ≡ answer_of (trace i (length stack.old) text.now)) }
{
    let machine = Machine {
        image,
        read,
        tables,
        productions,
        scanner,
    };
    machine_loop::run_image(&machine, text, stack)
}

// Runs an image over a text with a lent stack, without a table.
pub fn run(image: &[u8], text: &[u8], stack: &mut [u8]) -> RunAnswer
    ensures { ran result (stack_alone stack.new)
        ≡ run image.now text.now (stack_alone stack.old) }
{
    let mut tables = [0u64; 448];
    let mut productions = [0u16; 2048];
    let read = match read_for(image, text, &mut tables, &mut productions) {
        Ok(read) => read,
        Err(answer) => return answer,
    };
    run_read(image, read, &tables, &productions, None, text, stack)
}

// Runs an image over a text with a lent stack, table and winners. The table is built before the text is read, unless it has more than 256 rows.
pub fn run_table(
    image: &[u8],
    text: &[u8],
    table: &mut [u16],
    winners: &mut [u16],
    stack: &mut [u8],
) -> RunAnswer
    ensures { ran result (with_scanner stack.new table.new winners.new)
        ≡ run image.now text.now
        (with_scanner stack.old table.old winners.old) }
{
    if table.len() < TABLE_ENTRIES || winners.len() < WINNER_ENTRIES {
        return machine_turn::answer(18, 0, 0);
    }
    let mut tables = [0u64; 448];
    let mut productions = [0u16; 2048];
    let read = match read_for(image, text, &mut tables, &mut productions) {
        Ok(read) => read,
        Err(answer) => return answer,
    };
    let few = table_builder::build_table(table, winners, read.last, read.first, &tables);
    if !few {
        return machine_turn::answer(19, 0, 0);
    }
    let rows = ScannerTable { table, winners };
    run_read(image, read, &tables, &productions, Some(rows), text, stack)
}
