ghost use Rattle.std.specs.Prelude.{◌≡◌};
ghost use Rattle.spop_web.specs.Answer.{error_number, variable_name};

/// A variable of an ACK. Those of one message stand in this order.
#[derive(Clone, Copy, Debug, PartialEq, Eq)]
pub enum AckVariable {
    /// The identifier of the transaction, a STRING.
    Id,
    /// What is to be done, a STRING: `deny`, `drop` or `redirect`.
    Action,
    /// The status code to answer with, a UINT32.
    Status,
    /// Where to redirect to, or the name of the first bad argument, a STRING.
    Data,
    /// The identifier of the rule that interrupted, a UINT32.
    RuleId,
    /// Why the message was not judged, the number of an `AckError`, a UINT32.
    Error,
}

impl AckVariable {
    /// The name that it has in an ACK.
    pub fn name(self) -> &'static [u8]
        ensures { result.now ≡ variable_name self }
    {
        match self {
            AckVariable::Id => b"id",
            AckVariable::Action => b"action",
            AckVariable::Status => b"status",
            AckVariable::Data => b"data",
            AckVariable::RuleId => b"ruleid",
            AckVariable::Error => b"error",
        }
    }
}

/// Why a message was not judged.
#[derive(Clone, Copy, Debug, PartialEq, Eq)]
pub enum AckError {
    /// No application has that name, and none is the default.
    UnknownApp,
    /// The identifier names a transaction that is not over.
    IdInUse,
    /// The table of transactions is full.
    TableFull,
    /// No request with that identifier is parked.
    NotParked,
    /// An argument is missing or bad.
    BadArgument,
    /// The table has given all its tickets.
    Worn,
}

impl AckError {
    /// The number that it has in an ACK, 1 to 6.
    pub fn number(self) -> u32
        ensures { result ≡ error_number self }
    {
        match self {
            AckError::UnknownApp => 1,
            AckError::IdInUse => 2,
            AckError::TableFull => 3,
            AckError::NotParked => 4,
            AckError::BadArgument => 5,
            AckError::Worn => 6,
        }
    }
}
