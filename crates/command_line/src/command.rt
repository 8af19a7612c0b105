use waf_plain::Bytes;

/// What the words of a command line ask for.
#[derive(Debug, PartialEq, Eq, Drop)]
pub enum Command {
    /// `check CONF`
    Check(Bytes),
    /// `once RULES`
    Once(Bytes),
    /// `replay [--plain] CONF`
    Replay { plain: bool, conf: Bytes },
    /// `generate SEED COUNT`
    Generate { seed: u64, count: u32 },
    /// `serve CONF`
    Serve(Bytes),
    /// What the commands are.
    Help,
    /// Which version this is.
    Version,
    /// No command takes the words.
    Other,
}
