//! Why an order was refused, and what is said of it.

ghost use Rattle.std.specs.Prelude.{◌≡◌};
ghost use Rattle.abt_input.specs.OrderErrors.{order_refusal_text};

use crate::line::AnswerLine;

/// Why an order was refused.
#[derive(Clone, Copy, Debug, PartialEq, Eq)]
pub enum OrderRefusal {
    /// It has more than 65,536 bytes.
    Long,
    /// The text is no order of the model's variables, and this is its first bad line, counted from 1.
    Line { number: u64 },
}

/// The line that says why an order was refused.
pub(crate) fn order_refusal_line(refusal: OrderRefusal) -> AnswerLine
    ensures { result ≡ order_refusal_text refusal }
{
    match refusal {
        OrderRefusal::Long => AnswerLine::of(b"abt: order: too long\n"),
        OrderRefusal::Line { number } => AnswerLine::numbered(b"abt: order: line ", number),
    }
}
