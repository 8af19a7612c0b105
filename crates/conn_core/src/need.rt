/// What a connection needs next.
#[derive(Clone, Copy, Debug, PartialEq, Eq)]
pub enum Need {
    /// More input, or that it has ended.
    Bytes,
    /// The rules of the application that a request asks for.
    Look,
    /// A row in the table of transactions.
    Enter,
    /// The judgement of a request.
    Begin,
    /// That a request that was judged is parked until its response comes.
    Park,
    /// That a ticket is given back.
    Leave,
    /// The request that a response belongs to.
    Resume,
    /// The judgement of a response.
    Finish,
    /// The end of a request whose response is not judged.
    Retire,
    /// That bytes are written.
    Write,
    /// Nothing more: it is over.
    Close,
}

/// How a connection ended.
#[derive(Clone, Copy, Debug, PartialEq, Eq)]
pub enum Closing {
    /// HAProxy sent DISCONNECT, the input ended between two frames, or a health check was answered.
    Done,
    /// The input ended within a frame.
    CutShort,
    /// The agent sent DISCONNECT with this status (SPOE.txt, 3.5); 13 is out of memory.
    Ended(u32),
    /// Reading failed.
    ReadFault,
    /// Writing failed.
    WriteFault,
    /// As many bytes were taken as are taken of one connection.
    Spent,
}
