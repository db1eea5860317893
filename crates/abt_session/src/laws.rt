//! The laws of traces: their lines tell deliveries.

ghost use Rattle.abt_session.specs.Tracing.{LinesTellDeliveries, TracesTellDeliveries};

/// Two lines of a trace are equal exactly where they are of the same number, sender, receiver and cargo: a value, the
/// nogood of a step, or a request.
pub fn lines_tell_deliveries()
    ensures { LinesTellDeliveries }
{}

/// Two traces with answers behind them are equal exactly where they are of the same deliveries, in order, and the answers
/// are equal.
pub fn traces_tell_deliveries()
    ensures { TracesTellDeliveries }
{}
