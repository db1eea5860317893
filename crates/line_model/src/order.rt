//! Writing an order of a model's variables.

ghost use Rattle.std.specs.Prelude.{◌≡◌, ◌≤◌, [], ◌∷◌, length, OnOk};
ghost use Rattle.dcsp_script.specs.Outsides.{world};
ghost use Rattle.dcsp_script.specs.Scripts.{Create, Append, Put};
ghost use Rattle.dcsp_script.specs.Ways.{Wrote};
ghost use Rattle.dcsp_script.specs.Runs.{CameIn};
ghost use Rattle.abt_input.specs.Errors.{way_of};
ghost use Rattle.line_model.specs.OrderHeld.{HoldsOrder};
ghost use Rattle.line_model.specs.OrderPromise.{order_line, order_promise, rule_word};

use abt_input::{AnswerLine, CommandError, read_model};
use dcsp_order::{Order, OrderRule};
use dcsp_outside::{Folder, Sink};
use dcsp_script::{Outside, Status, Stop, append, create, put};
use std::alloc::Global;

/// The words of `order`.
#[derive(Clone, Copy)]
pub struct OrderLine<'w> {
    /// The name of the model.
    pub model: &'w str,
    /// The rule by which its variables are put in order.
    pub rule: OrderRule,
    /// The name of the file that takes the order.
    pub file: &'w str,
}

/// Writes the order of the model's variables by the rule, and tells the rule and how many variables there are.
pub fn run_order<F: Folder, S: Sink>(
    alloc: Global,
    outside: &mut Outside<F, S>,
    line: OrderLine<'_>,
) -> Result<Status, CommandError>
    ensures came { CameIn (order_promise line.entry.model.now line.entry.rule line.entry.file.now)
        (world F.place S.stream outside.old) (world F.place S.stream outside.new) (way_of result) }
    ensures writes { OnOk result (HoldsOrder line.entry.model.now line.entry.rule line.entry.file.now
        (F.place outside.old.folder).held (F.place outside.new.folder).held) }
{
    let problem = read_model(alloc, &mut outside.folder, line.model)?;
    let Ok(order) = Order::by_rule(alloc, &problem, line.rule) else {
        return Err(CommandError::Memory);
    };
    let Ok(text) = order.text(alloc) else {
        return Err(CommandError::Memory);
    };
    let told = order_line(line.rule, order.numbers().len() as u64);
    write_told(outside, line.file, &text, told.bytes())?;
    Ok(Status::Good)
}

/// Writes the text under the name, and then puts what is told of it.
fn write_told<F: Folder, S: Sink>(
    outside: &mut Outside<F, S>,
    name: &str,
    text: &[u8],
    told: &[u8],
) -> Result<(), Stop>
    ensures { Wrote (Create name.now ∷ Append name.now text.now ∷ Put told.now ∷ [])
        (world F.place S.stream outside.old) (world F.place S.stream outside.new) result }
{
    create(&mut outside.folder, name)?;
    append(&mut outside.folder, name, text)?;
    put(&mut outside.out, told)
}

/// The line that tells the rule and how many variables there are.
fn order_line(rule: OrderRule, variables: u64) -> AnswerLine
    ensures { result ≡ order_line rule variables }
{
    let before = AnswerLine::of(b"order ")
        .with(word_of(rule))
        .with(b" variables ");
    AnswerLine::numbered(before.bytes(), variables)
}

/// The rule in a word.
fn word_of(rule: OrderRule) -> &'static [u8]
    ensures word { result.now ≡ rule_word rule }
    ensures short { length result.now ≤ 16 }
{
    match rule {
        OrderRule::Degree => b"degree",
        OrderRule::Links => b"links",
        OrderRule::Reverse => b"reverse",
    }
}
