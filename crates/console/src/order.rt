//! What a line asks for.
ghost use Rattle.std.specs.Prelude.{◌≡◌};
ghost use Rattle.console.specs.Orders.{order_of, says};

/// What is asked of a running agent.
#[derive(Clone, Copy, Debug, PartialEq, Eq)]
pub enum Order {
    /// `reload`: the configuration is to be loaded again.
    Reload,
    /// `stats`: the rows of the table are to be counted.
    Stats,
    /// `stop`: no further connection is to be taken.
    Stop,
    /// An empty line.
    Nothing,
    /// Any other line.
    Unknown,
}

// The order of a line, which may have a CR at its end.
pub fn order_of(line: &[u8]) -> Order
    ensures { result ≡ order_of line.now }
{
    if says(b"reload", b"reload\r", line) {
        Order::Reload
    } else if says(b"stats", b"stats\r", line) {
        Order::Stats
    } else if says(b"stop", b"stop\r", line) {
        Order::Stop
    } else if says(b"", b"\r", line) {
        Order::Nothing
    } else {
        Order::Unknown
    }
}

// It is the word, or the word with its CR.
fn says(word: &[u8], ended: &[u8], line: &[u8]) -> bool
    ensures { result ≡ says word.now ended.now line.now }
{
    line == word || line == ended
}
