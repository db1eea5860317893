//! Usage and help, made from the rows.

ghost use Rattle.std.specs.Prelude.{◌≡◌, ◌++◌, ◌<◌, List, ℕ, map, flat_map, length, codes, string_bytes, IfOk, OnOk};
ghost use Rattle.abt_words.specs.Rows.{texts_in, place_in, option_in, row_in, the_rows};
ghost use Rattle.abt_words.specs.Texts.{each_text, keyword_text, content_text, access_text, place_usage, option_usage, row_usage, usage_text, option_shown, row_form, gap, sentence, row_help, help_text};

use crate::row::{Access, Content, LineOption, Place, Row, WordKindOf};
use crate::rows::{other_rows, run_rows};
use std::alloc::{AllocError, Global};

/// What stands before the sentences that do not begin behind their form.
const BLANKS: &str = "                        ";

/// The first lines of the help.
const HEAD: &str = "abt: asynchronous backtracking over FlatZinc, with certified answers\n\n";

/// The lines of the help behind those of the rows.
const TAIL: &str =
    "\nMODEL is a FlatZinc file, LOG a log of derivations, SCHEDULE a list of choices. A file
name is not empty, does not begin with `-`, and differs from the others. With --trace
each delivery prints a line. A seed is 0 to 2^64 - 1, and 0 where none is given.

Status  0 done, and the answer is good     4 the log, schedule or proof was refused
        1 done, and the answer is no       5 a run was stopped before its verdict
        2 the words are no line above      6 a file or a stream failed
        3 the model or formula was refused 7 memory ran out

With 2, 3, 4, 6 and 7 a line on standard error says why. docs/CLAIMS.md tells what
is proved, docs/FORMATS.md the formats and the lines that refuse a file.
";

/// The texts, each with something before it and something behind it.
fn push_each(
    text: &mut String,
    before: &str,
    behind: &str,
    items: &[&str],
) -> Result<(), AllocError>
    ensures { OnOk result (string_bytes text.new ≡ string_bytes text.old ++ each_text before.now behind.now (map (λ item. item.now) items.now)) }
{
    for item in items {
        write!(text, "{before}{item}{behind}")?;
    }
    Ok(())
}

/// The words of a keyword, with a blank between.
fn push_keyword(text: &mut String, keyword: &[&str]) -> Result<(), AllocError>
    ensures { OnOk result (string_bytes text.new ≡ string_bytes text.old ++ keyword_text (map (λ item. item.now) keyword.now)) }
{
    let [first, others @ ..] = keyword else {
        return Ok(());
    };
    text.push_str(first)?;
    push_each(text, " ", "", others)
}

fn content_text(content: Content) -> &'static str
    ensures { result.now ≡ content_text content }
{
    match content {
        Content::Model => "model",
        Content::Log => "log",
        Content::Schedule => "schedule",
        Content::Order => "order",
        Content::Formula => "formula",
        Content::Proof => "proof",
        Content::Story => "story",
    }
}

fn access_text(access: Access) -> &'static str
    ensures { result.now ≡ access_text access }
{
    match access {
        Access::Read => "read",
        Access::Written => "written",
    }
}

/// What a word is, with `:` between its kind, how it is shown, and what the kind says.
fn push_place_usage(text: &mut String, place: Place) -> Result<(), AllocError>
    ensures { OnOk result (string_bytes text.new ≡ string_bytes text.old ++ place_usage (place_in place.entry)) }
{
    let shown = place.shown;
    match place.kind {
        WordKindOf::File { content, access } => {
            let content = content_text(content);
            let access = access_text(access);
            write!(text, "file:{shown}:{content}:{access}")
        }
        WordKindOf::Number { least, most } => write!(text, "number:{shown}:{least}:{most}"),
        WordKindOf::Signed => write!(
            text,
            "signed:{shown}:-9223372036854775808:9223372036854775807"
        ),
        WordKindOf::OneOf { words } => {
            write!(text, "word:{shown}")?;
            push_each(text, ":", "", words)
        }
    }
}

/// An option, and behind `=` what its value is.
fn push_option_usage(text: &mut String, option: LineOption) -> Result<(), AllocError>
    ensures { OnOk result (string_bytes text.new ≡ string_bytes text.old ++ option_usage (option_in option.entry)) }
{
    text.push_str(option.word)?;
    let Some(place) = option.value else {
        return Ok(());
    };
    text.push_str("=")?;
    push_place_usage(text, place)
}

/// The places of a row, each behind a blank.
fn push_places_usage(text: &mut String, places: &[Place]) -> Result<(), AllocError>
    ensures { OnOk result (string_bytes text.new ≡ string_bytes text.old ++ flat_map (λ place. codes " " ++ place_usage place) (map place_in places.now)) }
{
    for place in places {
        text.push_str(" ")?;
        push_place_usage(text, *place)?;
    }
    Ok(())
}

/// The options of a row, each behind a blank.
fn push_options_usage(text: &mut String, options: &[LineOption]) -> Result<(), AllocError>
    ensures { OnOk result (string_bytes text.new ≡ string_bytes text.old ++ flat_map (λ option. codes " " ++ option_usage option) (map option_in options.now)) }
{
    for option in options {
        text.push_str(" ")?;
        push_option_usage(text, *option)?;
    }
    Ok(())
}

/// A row: its keyword, its places and its options.
fn push_row_usage(text: &mut String, row: Row) -> Result<(), AllocError>
    ensures { OnOk result (string_bytes text.new ≡ string_bytes text.old ++ row_usage (row_in row.entry)) }
{
    push_keyword(text, row.keyword)?;
    push_places_usage(text, row.places)?;
    push_options_usage(text, row.options)?;
    text.push_str("\n")
}

/// What `--usage` prints: the rows of the program, one a line.
pub fn usage(alloc: Global) -> Result<String, AllocError>
    ensures { IfOk result (λ text. string_bytes text ≡ usage_text the_rows) }
{
    let mut text = String::new(alloc);
    push_usage(&mut text, run_rows())?;
    push_usage(&mut text, other_rows())?;
    Ok(text)
}

fn push_usage(text: &mut String, rows: &[Row]) -> Result<(), AllocError>
    ensures { OnOk result (string_bytes text.new ≡ string_bytes text.old ++ flat_map row_usage (map row_in rows.now)) }
{
    for row in rows {
        push_row_usage(text, *row)?;
    }
    Ok(())
}

/// How help shows the places of a row.
fn push_places_shown(text: &mut String, places: &[Place]) -> Result<(), AllocError>
    ensures { OnOk result (string_bytes text.new ≡ string_bytes text.old ++ flat_map (λ place. codes " " ++ place.shown) (map place_in places.now)) }
{
    for place in places {
        text.push_str(" ")?;
        text.push_str(place.shown)?;
    }
    Ok(())
}

/// How help shows an option.
fn push_option_shown(text: &mut String, option: LineOption) -> Result<(), AllocError>
    ensures { OnOk result (string_bytes text.new ≡ string_bytes text.old ++ option_shown (option_in option.entry)) }
{
    let word = option.word;
    match option.value {
        Some(place) => {
            let shown = place.shown;
            write!(text, " [{word} {shown}]")
        }
        None => write!(text, " [{word}]"),
    }
}

/// How help shows the options of a row.
fn push_options_shown(text: &mut String, options: &[LineOption]) -> Result<(), AllocError>
    ensures { OnOk result (string_bytes text.new ≡ string_bytes text.old ++ flat_map option_shown (map option_in options.now)) }
{
    for option in options {
        push_option_shown(text, *option)?;
    }
    Ok(())
}

/// The form of a line.
fn push_form(text: &mut String, row: Row) -> Result<(), AllocError>
    ensures { OnOk result (string_bytes text.new ≡ string_bytes text.old ++ row_form (row_in row.entry)) }
{
    text.push_str("  abt ")?;
    push_keyword(text, row.keyword)?;
    push_places_shown(text, row.places)?;
    push_options_shown(text, row.options)
}

/// What stands between a form of this width and its sentence.
fn push_gap(text: &mut String, width: usize) -> Result<(), AllocError>
    ensures { OnOk result (string_bytes text.new ≡ string_bytes text.old ++ gap width) }
{
    if 22 < width {
        text.push_str("\n")?;
        return text.push_str(BLANKS);
    }
    text.push_str(&BLANKS[width..])
}

/// The lines of a sentence.
fn push_sentence(text: &mut String, lines: &[&str]) -> Result<(), AllocError>
    ensures { OnOk result (string_bytes text.new ≡ string_bytes text.old ++ sentence (map (λ line. line.now) lines.now)) }
{
    let [first, others @ ..] = lines else {
        return text.push_str("\n");
    };
    text.push_str(first)?;
    text.push_str("\n")?;
    push_each(text, BLANKS, "\n", others)
}

/// A line of the program and its sentence.
fn push_row_help(text: &mut String, row: Row) -> Result<(), AllocError>
    ensures { OnOk result (string_bytes text.new ≡ string_bytes text.old ++ row_help (row_in row.entry)) }
{
    let before = text.len();
    push_form(text, row)?;
    let width = text.len() - before;
    push_gap(text, width)?;
    push_sentence(text, row.tells)
}

fn push_rows_help(text: &mut String, rows: &[Row]) -> Result<(), AllocError>
    ensures { OnOk result (string_bytes text.new ≡ string_bytes text.old ++ flat_map row_help (map row_in rows.now)) }
{
    for row in rows {
        push_row_help(text, *row)?;
    }
    Ok(())
}

/// What `--help` prints: the forms of the program's lines, and what they do.
pub fn help(alloc: Global) -> Result<String, AllocError>
    ensures { IfOk result (λ text. string_bytes text ≡ help_text the_rows) }
{
    let mut text = String::from_str(alloc, HEAD)?;
    push_rows_help(&mut text, run_rows())?;
    push_rows_help(&mut text, other_rows())?;
    text.push_str(TAIL)?;
    Ok(text)
}
