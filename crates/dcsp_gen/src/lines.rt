//! The lines of generated problems, each appended to a text. A letter and a number from 1 name a
//! variable: q1, q2 and so on. After a refusal a text may end within a line.
ghost use Rattle.std.specs.Prelude.{◌≡◌, ℕ, ◌+◌, ◌<◌, ◌++◌, ◌^◌, length, string_bytes, OnOk};
ghost use Rattle.dcsp_gen.specs.Lines.{array_line, differ_line, diagonal_lines, name, names, solve_line, variable_line, variable_lines};

use std::alloc::AllocError;

/// Declares variable `number` with the values from 1 to `high`.
fn push_variable(text: &mut String, letter: &str, high: u32, number: u32) -> Result<(), AllocError>
    ensures { OnOk result (string_bytes text.new ≡ string_bytes text.old ++ variable_line letter.now high number) }
{
    write!(text, "var 1..{high}: {letter}{number};\n")
}

/// Declares the variables 1 to `count`, each with the values from 1 to `high`.
pub fn push_variables(
    text: &mut String,
    letter: &str,
    high: u32,
    count: u32,
) -> Result<(), AllocError>
    requires { count < 2 ^ 31 }
    ensures { OnOk result (string_bytes text.new ≡ string_bytes text.old ++ variable_lines letter.now high count) }
{
    for number in 1..count + 1 {
        push_variable(text, letter, high, number)?;
    }
    Ok(())
}

/// The name of variable `number`.
fn push_name(text: &mut String, letter: &str, number: u32) -> Result<(), AllocError>
    ensures { OnOk result (string_bytes text.new ≡ string_bytes text.old ++ name letter.now number) }
{
    write!(text, "{letter}{number}")
}

/// The names of the variables 1 to `count`.
fn push_names(text: &mut String, letter: &str, count: u32) -> Result<(), AllocError>
    requires first { 0 < count }
    requires count { count < 2 ^ 31 }
    ensures { OnOk result (string_bytes text.new ≡ string_bytes text.old ++ names letter.now count) }
{
    push_name(text, letter, 1)?;
    for number in 2..count + 1 {
        text.push_str(",")?;
        push_name(text, letter, number)?;
    }
    Ok(())
}

/// Declares the array of all variables, which is what a solution prints.
pub fn push_array(text: &mut String, letter: &str, count: u32) -> Result<(), AllocError>
    requires first { 0 < count }
    requires count { count < 2 ^ 31 }
    ensures { OnOk result (string_bytes text.new ≡ string_bytes text.old ++ array_line letter.now count) }
{
    write!(
        text,
        "array [1..{count}] of var int: {letter} :: output_array([1..{count}]) = ["
    )?;
    push_names(text, letter, count)?;
    text.push_str("];\n")?;
    Ok(())
}

/// Two variables have different values.
pub fn push_differ(
    text: &mut String,
    letter: &str,
    first: u32,
    second: u32,
) -> Result<(), AllocError>
    ensures { OnOk result (string_bytes text.new ≡ string_bytes text.old ++ differ_line letter.now first second) }
{
    write!(
        text,
        "constraint int_ne({letter}{first},{letter}{second});\n"
    )
}

/// The second number less the first, and its negation, are not the difference of the two variables.
pub fn push_diagonals(
    text: &mut String,
    letter: &str,
    first: u32,
    second: u32,
) -> Result<(), AllocError>
    requires { first < second }
    ensures { OnOk result (string_bytes text.new ≡ string_bytes text.old ++ diagonal_lines letter.now first second) }
{
    let distance = second - first;
    write!(
        text,
        "constraint int_lin_ne([1,-1],[{letter}{first},{letter}{second}],{distance});\n"
    )?;
    write!(
        text,
        "constraint int_lin_ne([1,-1],[{letter}{first},{letter}{second}],-{distance});\n"
    )?;
    Ok(())
}

/// Asks for any solution.
pub fn push_solve(text: &mut String) -> Result<(), AllocError>
    ensures { OnOk result (string_bytes text.new ≡ string_bytes text.old ++ solve_line) }
{
    text.push_str("solve satisfy;\n")
}
