// Recognising a text by a sheet, as document 001's recogniser does: the sheet is checked, the text's tokens are listed, and the expression
// itself is descended over them. No image is made or read. Each part is another crate's; here is their order, and what the answer is.
#![tactic(auto)]

ghost use Rattle.std.specs.Prelude.{◌≡◌, ◌-◌, ◌≤◌, length, take, drop};
ghost use Rattle.sheet.specs.Sheet.{Sheet};
ghost use Rattle.lexer.specs.RuleOrder.{image_sheet};
ghost use Rattle.recogniser.specs.Descends.{Descent};
ghost use Rattle.recogniser.specs.Listing.{list_tokens};
ghost use Rattle.recogniser.specs.Recognise.{descent_answer, after_listing, recognised};
ghost use Rattle.sheet_checker.specs.Steps.{PassedParts};
ghost use Rattle.text_recogniser.specs.Ends.{answer_held, Told, EndsAs};

use sheet_checker::CheckedSheet;

const MOST_TEXT_BYTES: usize = 2048;

// What recognising returns: document 02's number and place, and the count of the tokens written.
#[derive(Clone, Copy)]
pub struct Recognition {
    pub number: u8,
    pub place: usize,
    pub count: usize,
}

fn answer(number: u8, place: usize, count: usize) -> Recognition
    ensures { result ≡ record { number = number; place = place; count = count } }
{
    Recognition {
        number,
        place,
        count,
    }
}

// The first so many entries of a list, at the end of an array.
fn at_end(list: &[u8], count: usize) -> [u8; 2048]
    requires { (count ≤ length list.now) × (count ≤ 2048) }
    ensures { drop (2048 - count) result ≡ take count list.now }
{
    let mut tokens = [0u8; 2048];
    tokens[2048 - count..].copy_from_slice(&list[..count]);
    tokens
}

// What the descent ends with decides: so many of all tokens are left, and it may be stuck there.
fn decide(told: usize, starts: [u16; 2048], count: usize, end: usize) -> Recognition
    requires { (count ≤ 2048) × ((o : Descent) × Told count told o) }
    ensures { (o : Descent) → Told count told o
        → answer_held result ≡ descent_answer (take count starts) end o }
{
    if told == 0 {
        return answer(0, end, count);
    }
    if told == 1 {
        return answer(16, end, count);
    }
    let left = told / 2;
    answer(15, usize::from(starts[count - left]), count)
}

// The text of a sheet that passed, once 12 and 20 have been asked.
fn recognise_text(checked: CheckedSheet, text: &[u8], list: &mut [u8]) -> Recognition
    requires { (length text.now ≤ 2048) × (length text.now ≤ length list.old) × ((s : Sheet) × PassedParts s checked) }
    ensures { (s : Sheet) → PassedParts s checked
        → EndsAs (after_listing s (length text.now) (list_tokens (image_sheet s).rules text.now))
        result list.old list.new }
{
    let ordered = sheet_checker::in_image_order(checked);
    let rules = ordered.rules;
    let mut starts = [0u16; 2048];
    let listed = token_lister::list_tokens(rules, text, list, &mut starts);
    let count = listed.count;
    if listed.place < text.len() {
        return answer(14, listed.place, count);
    }
    let links = checked.links;
    let types = checked.types;
    let table = descent_table::descent_table(links, types);
    let tokens = at_end(list, count);
    let told = descent::descend(&table, &tokens, count);
    decide(told, starts, count, text.len())
}

// Recognises a text by a sheet, with a lent work area, and writes the text's tokens into a lent list. `answer_held` has document 02's
// number, place and count for the answer.
pub fn recognise(sheet: &[u8], text: &[u8], work: &mut [u8], list: &mut [u8]) -> Recognition
    ensures { (answer_held result ≡ (recognised sheet.now text.now work.old list.old).answer)
        × (list.new ≡ (recognised sheet.now text.now work.old list.old).list)
        × (work.new ≡ (recognised sheet.now text.now work.old list.old).work) }
{
    match sheet_checker::check_sheet(sheet, work) {
        Err(refusal) => answer(refusal.question, refusal.place, 0),
        Ok(checked) => {
            if MOST_TEXT_BYTES < text.len() {
                return answer(12, 0, 0);
            }
            if list.len() < text.len() {
                return answer(20, 0, 0);
            }
            recognise_text(checked, text, list)
        }
    }
}
