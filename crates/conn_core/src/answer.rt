use sec_ast::Verdict;

/// What an application wants.
#[derive(Clone, Copy, Debug, PartialEq, Eq)]
pub struct Settings {
    /// Its responses are judged, too.
    pub responses: bool,
    /// How long a request waits for its response, in milliseconds.
    pub life: u64,
}

/// What a look for an application answers.
#[derive(Debug, Drop)]
pub enum LookAnswer<R> {
    Found { rules: R, settings: Settings },
    UnknownApp,
    NoMemory,
}

/// What entering the table of transactions answers.
#[derive(Debug, Drop)]
pub enum EntryAnswer<T> {
    Entered(T),
    /// The key has a row.
    IdInUse,
    /// There is no room for a further row.
    Full,
    /// All tickets were given.
    Worn,
}

/// What judging a request answers.
#[derive(Debug, Drop)]
pub enum BegunAnswer<P> {
    Interrupted(Verdict),
    Goes(P),
    NoMemory,
}

/// What judging a response answers.
#[derive(Debug, Drop)]
pub enum EndedAnswer {
    Verdict(Option<Verdict>),
    NoMemory,
}
