//! Which line comes next.

/// The place of a trace's next line.
#[derive(Clone, Copy, Debug, PartialEq, Eq)]
pub enum LinePlace {
    Title,
    Operations,
    Workers,
    Budget,
    /// The costs of the operations, which are `operations` lines.
    Costs,
    /// The events, and the end behind them.
    Events,
    /// Behind the end, where nothing stands.
    Nothing,
}
