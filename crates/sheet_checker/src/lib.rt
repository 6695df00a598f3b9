// Checking a sheet: questions 1 to 10 in order. Each question is another crate's; here is their order, their places, and what is left
// in the lent work area. Nothing is done that only writing an image needs: no position is made, no row, and no node is numbered.
#![tactic(auto)]

ghost use Rattle.std.specs.Prelude.{◌≡◌, length};
ghost use Rattle.std.proofs.Math.Option.{none};
ghost use Rattle.sheet.specs.Reading.{Contents};
ghost use Rattle.sheet.specs.Sheet.{Sheet};
ghost use Rattle.types.specs.Questions.{type_fault};
ghost use Rattle.lexer.specs.Positions.{empty_match};
ghost use Rattle.lexer.specs.RuleOrder.{image_sheet};
ghost use Rattle.image.specs.Check.{after_types, after_rules, after_work, check, check_answer, work_after};
ghost use Rattle.sheet_checker.specs.Answer.{answer_of, case_of, Ends};
ghost use Rattle.sheet_checker.specs.Steps.{SheetOf, PassedParts};

use columns::{NodeColumns, NodeLinks, RuleColumns, TypeColumns};
use sheet_reader::Refusal;

const WORK_BYTES: usize = 65536;

pub const MOST_SHEET_BYTES: usize = 4096;

// The questions that are asked here: is the work area large enough, is the sheet short enough, does each rule match some byte.
const SMALL_WORK: u8 = 1;

const LONG_SHEET: u8 = 2;

const EMPTY_RULE: u8 = 7;

// Of a sheet that passed the rules, the nodes of its expression with their links, and their types: writing goes on from there.
// `PassedParts` says what they hold. These stay free, as no later step asks for them: entries from a count on, `rules.place`,
// the link of a node that has none, members of `guarded` that are no variables, and members of `null` that are no nodes.
#[derive(Clone, Copy)]
pub struct CheckedSheet {
    pub rules: RuleColumns,
    pub links: NodeLinks,
    pub types: TypeColumns,
}

// Questions 8 to 10, at the failing node's tag.
fn check_expression(nodes: NodeColumns, rules: RuleColumns) -> Result<CheckedSheet, Refusal>
    requires { (c : Contents) × SheetOf c rules nodes }
    ensures { (c : Contents) → SheetOf c rules nodes → empty_match c.sheet.rules 0 ≡ none
        → Ends (after_types c (type_fault c.sheet.expression)) result }
{
    let checked = type_checker::check_types(nodes);
    match checked.fault {
        Some(fault) => {
            let place = usize::from(nodes.place[usize::from(fault.node)]);
            let refusal = Refusal {
                question: fault.question,
                place,
            };
            Err(refusal)
        }
        None => Ok(CheckedSheet {
            rules,
            links: checked.links,
            types: checked.types,
        }),
    }
}

// Question 7, at the first bad rule's action; then 8 to 10.
fn check_rules(rules: RuleColumns, nodes: NodeColumns) -> Result<CheckedSheet, Refusal>
    requires { (c : Contents) × SheetOf c rules nodes }
    ensures { (c : Contents) → SheetOf c rules nodes → Ends (after_rules c (empty_match c.sheet.rules 0)) result }
{
    match position_finder::empty_rule(rules) {
        Some(rule) => {
            let at = usize::from(rule);
            let place = usize::from(rules.place[at]);
            Err(Refusal {
                question: EMPTY_RULE,
                place,
            })
        }
        None => check_expression(nodes, rules),
    }
}

// Questions 2 to 10.
fn check_bytes(sheet: &[u8]) -> Result<CheckedSheet, Refusal>
    ensures { Ends (after_work sheet.now) result }
{
    if MOST_SHEET_BYTES < sheet.len() {
        return Err(Refusal {
            question: LONG_SHEET,
            place: 0,
        });
    }
    let read = sheet_reader::read_sheet(sheet)?;
    check_rules(read.rules, read.nodes)
}

// Checks a sheet, and hands on what it made of one that passes. The work area is asked for and cleared; what checking keeps is small
// enough to be held by value.
pub fn check_sheet(sheet: &[u8], work: &mut [u8]) -> Result<CheckedSheet, Refusal>
    ensures { Ends (check sheet.now (length work.old)) result
        × (work.new ≡ work_after work.old) }
{
    if work.len() < WORK_BYTES {
        return Err(Refusal {
            question: SMALL_WORK,
            place: 0,
        });
    }
    buffers::clear_front(work, WORK_BYTES);
    check_bytes(sheet)
}

// Checks a sheet: it passes, or the question that fails, 1 to 10, and its place. `answer_of` has the number and the place for each.
pub fn check(sheet: &[u8], work: &mut [u8]) -> Result<(), Refusal>
    ensures { (result ≡ case_of (check sheet.now (length work.old)))
        × (work.new ≡ work_after work.old)
        × (answer_of result ≡ check_answer (check sheet.now (length work.old))) }
{
    check_sheet(sheet, work)?;
    Ok(())
}

// A sheet that passed, with its rules in the image's order. The questions were asked before, in the order of the sheet; what `rules` has as
// places is left open, since no later step asks for it.
pub fn in_image_order(checked: CheckedSheet) -> CheckedSheet
    requires { (s : Sheet) × PassedParts s checked }
    ensures { (s : Sheet) → PassedParts s checked → PassedParts (image_sheet s) result }
{
    let rules = rule_sorter::words_first(checked.rules);
    CheckedSheet { rules, ..checked }
}
