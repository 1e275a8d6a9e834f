use crate::books::Books;
use crate::callers::Tickets;

/// What the board keeps of all configurations, whatever its set of modules is.
pub struct Desk<F> {
    pub fixtures: F,
    pub books: Books,
    pub serial: u32,
    pub halted: bool,
    /// How many requests began under the serial.
    pub begun: u64,
    pub tickets: Tickets,
    /// Whether serial 0 is retired, which no draft has.
    pub opening_retired: bool,
}
