// The program: reads the files `sheet` and `text` of the folder that it runs in, and prints one
// line. Its bytes are promised for what was loaded. That the files are loaded and the bytes printed
// is not, for the contracts of reading and writing do not say it.
#![tactic(auto)]

ghost use Rattle.std.specs.Prelude.{◌≡◌, take};
ghost use Rattle.io.specs.Counts.{IsPrefixLen};
ghost use Rattle.lines.specs.Lines.{line_bytes};
ghost use Rattle.text_reader.specs.Program.{program_line, OwnLine};

use std::rt::Files;

// Reads a file from its beginning into a buffer, and answers how many bytes it gave; a file that
// can't be opened counts as empty.
fn load<R: Files>(files: &R, name: &str, buffer: &mut [u8]) -> usize
    ensures { IsPrefixLen result buffer.new }
{
    loader::load(files, name, buffer).unwrap_or(0)
}

// Puts the bytes to print at the front of a buffer, and answers how many they are. They are those
// of the program's line for the sheet and the text; where the sheet is accepted and the text within
// the limit, that is the line of the sheet's own answer.
fn put_output(sheet: &[u8], text: &[u8], buffer: &mut [u8; lines::MOST_LINE]) -> usize
    ensures { (IsPrefixLen result buffer.new)
        × (take result buffer.new ≡ line_bytes
        (program_line sheet.now text.now))
        × OwnLine sheet.now text.now
        (program_line sheet.now text.now) }
{
    let line = text_reader::program_line(sheet, text);
    lines::write_line(line, buffer)
}

fn main(rt: HostRuntime) {
    let mut sheet = [0u8; text_reader::LOADED_SHEET];
    let mut text = [0u8; text_reader::LOADED_TEXT];
    let mut line = [0u8; lines::MOST_LINE];
    let sheet_size = load(&rt, "sheet", &mut sheet);
    let text_size = load(&rt, "text", &mut text);
    let size = put_output(&sheet[..sheet_size], &text[..text_size], &mut line);
    // The program has no exit status of its own: where the line cannot be written, nothing more is
    // tried.
    rt.write_all(&line[..size]).unwrap_or(());
}
