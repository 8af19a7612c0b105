ghost use Rattle.std.specs.Prelude.{◌≡◌, ◌≢◌, ◌<◌, ◌≤◌, length, List, None, Option, Some, true, ℕ};
ghost use Rattle.waf_io.specs.Counts.{Rose};
ghost use Rattle.waf_io.specs.Source.{CountsEnd, Reads};
ghost use Rattle.conn_core.specs.Calls.{At};
ghost use Rattle.conn_core.specs.Stands.{calls_left, Closes, listens, opening, Stands, State};
ghost use Rattle.conn_loop.specs.Ends.{around, Serves};
ghost use Rattle.conn_loop.specs.Met.{IsHeld};
ghost use Rattle.conn_loop.specs.Steps.{EndsHere, Hears, IsFree, IsServing, Progresses, Stepped, WritesOut};

use crate::Host;
use crate::needs::act;
use conn_core::{Closing, Conn, Need};
use std::alloc::Global;
use waf_io::{Got, Sink, Source, Wrote, write_whole};

// As many bytes as are taken of one connection: 2 to the 62nd power.
pub const MOST_BYTES: u64 = 4611686018427387904;

// As many bytes as are read at a time.
const PIECE_SIZE: usize = 4096;

/// How serving a connection ended.
#[derive(Clone, Copy, Debug, PartialEq, Eq)]
pub enum ConnEnd {
    Closed(Closing),
    /// As many bytes were taken as ever are.
    Spent,
    ReadFault,
    WriteFault,
    /// There was no memory to begin with.
    NoMemory,
}

// Where a connection stands when its needs were done.
#[derive(Clone, Copy, Debug, PartialEq, Eq)]
pub enum Progress {
    // it waits for bytes
    Waits,
    Closes(Closing),
    // a write failed
    Fails,
}

/// Serves one connection of an agent that offers frames of that size, piece by piece, with what the host answers.
pub fn serve<R: Drop, P: Drop, T, H: Host<R, P, T>, S: Source, K: Sink>(
    alloc: Global,
    size: u32,
    host: &mut H,
    input: &mut S,
    output: &mut K,
) -> ConnEnd
    requires ready { H.ready host.old }
    ensures served { Serves result H.serves size
        (around (H.desk host.old) (S.left input.old) (S.ends input.old) (K.held output.old))
        (around (H.desk host.new) (S.left input.new) (S.ends input.new) (K.held output.new)) }
    ensures fixed { H.fixed host.new ≡ H.fixed host.old }
    ensures ready { H.ready host.new }
    ensures read_fault { result ≡ ConnEnd.ReadFault → Rose (S.faults input.old) (S.faults input.new) }
    ensures write_fault { result ≡ ConnEnd.WriteFault → Rose (K.faults output.old) (K.faults output.new) }
{
    let Ok(mut conn) = Conn::<R, P, T>::new(alloc, size) else {
        return ConnEnd::NoMemory;
    };
    let end = serve_pieces(size, &mut conn, host, input, output);
    let_go(conn, host);
    end
}

// At its end it holds no ticket.
fn let_go<R: Drop, P: Drop, T, H: Host<R, P, T>>(conn: Conn<R, P, T>, host: &mut H)
    requires free { IsFree conn }
    requires ready { H.ready host.old }
    ensures kept { H.desk host.new ≡ H.desk host.old }
    ensures fixed { H.fixed host.new ≡ H.fixed host.old }
    ensures ready { H.ready host.new }
{
    if let Some(ticket) = conn.let_go() {
        host.leave(ticket);
    }
}

// Hears the input piece by piece, up to the end of the connection.
fn serve_pieces<R: Drop, P: Drop, T, H: Host<R, P, T>, S: Source, K: Sink>(
    size: u32,
    conn: &mut Conn<R, P, T>,
    host: &mut H,
    input: &mut S,
    output: &mut K,
) -> ConnEnd
    requires stands { Stands conn.old (opening size) }
    requires listens { listens conn.old ≡ true }
    requires ready { H.ready host.old }
    ensures served { Serves result H.serves size
        (around (H.desk host.old) (S.left input.old) (S.ends input.old) (K.held output.old))
        (around (H.desk host.new) (S.left input.new) (S.ends input.new) (K.held output.new)) }
    ensures free { IsFree conn.new }
    ensures fixed { H.fixed host.new ≡ H.fixed host.old }
    ensures ready { H.ready host.new }
    ensures read_fault { result ≡ ConnEnd.ReadFault → Rose (S.faults input.old) (S.faults input.new) }
    ensures write_fault { result ≡ ConnEnd.WriteFault → Rose (K.faults output.old) (K.faults output.new) }
{
    let mut buffer = [0u8; PIECE_SIZE];
    let mut taken = 0u64;
    while taken < MOST_BYTES {
        let room = (MOST_BYTES - taken).min(PIECE_SIZE as u64) as usize;
        match read_piece(input, room, &mut buffer) {
            Got::Failed => return ConnEnd::ReadFault,
            Got::End => return hear_end(conn, host, output),
            Got::Bytes(count) => {
                taken += count;
                let piece = buffer.split_at(count as usize).0;
                if let Some(end) = hear(piece, conn, host, output) {
                    return end;
                }
            }
        }
    }
    ConnEnd::Spent
}

// Reads at most so many bytes to the front of the buffer.
fn read_piece<S: Source>(input: &mut S, room: usize, buffer: &mut [u8]) -> Got
    requires some { 0 < room }
    requires within { room ≤ length buffer.old }
    ensures bytes { Reads result buffer.new (S.left input.old) (S.left input.new) }
    ensures room { (count : ℕ) → result ≡ Got.Bytes count → count ≤ room }
    ensures length { length buffer.new ≡ length buffer.old }
    ensures later { S.faults input.old ≤ S.faults input.new }
    ensures cause { result ≡ Got.Failed → Rose (S.faults input.old) (S.faults input.new) }
    ensures end { CountsEnd result (S.ends input.old) (S.ends input.new) }
{
    input.read(&mut buffer[..room])
}

// A piece of the input comes; `Some` where the connection ends with it.
fn hear<R: Drop, P: Drop, T, H: Host<R, P, T>, K: Sink>(
    piece: &[u8],
    conn: &mut Conn<R, P, T>,
    host: &mut H,
    output: &mut K,
) -> Option<ConnEnd>
    requires runs { IsServing H.serves conn.old (H.desk host.old) (K.held output.old) }
    requires free { IsFree conn.old }
    requires ready { H.ready host.old }
    ensures heard { Hears piece.now result H.serves
        conn.old conn.new (H.desk host.old) (H.desk host.new) (K.held output.old) (K.held output.new) }
    ensures free { IsFree conn.new }
    ensures fixed { H.fixed host.new ≡ H.fixed host.old }
    ensures ready { H.ready host.new }
    ensures later { K.faults output.old ≤ K.faults output.new }
    ensures no_read { result ≢ Some ConnEnd.ReadFault }
    ensures cause { result ≡ Some ConnEnd.WriteFault → Rose (K.faults output.old) (K.faults output.new) }
{
    conn.feed(piece);
    match advance(conn, host, output) {
        Progress::Waits => None,
        Progress::Closes(how) => Some(ConnEnd::Closed(how)),
        Progress::Fails => Some(ConnEnd::WriteFault),
    }
}

// The input has ended, and with it the connection.
fn hear_end<R: Drop, P: Drop, T, H: Host<R, P, T>, K: Sink>(
    conn: &mut Conn<R, P, T>,
    host: &mut H,
    output: &mut K,
) -> ConnEnd
    requires runs { IsServing H.serves conn.old (H.desk host.old) (K.held output.old) }
    requires listens { listens conn.old ≡ true }
    requires free { IsFree conn.old }
    requires ready { H.ready host.old }
    ensures ended { EndsHere result H.serves
        conn.old conn.new (H.desk host.old) (H.desk host.new) (K.held output.old) (K.held output.new) }
    ensures free { IsFree conn.new }
    ensures fixed { H.fixed host.new ≡ H.fixed host.old }
    ensures ready { H.ready host.new }
    ensures no_read { result ≢ ConnEnd.ReadFault }
    ensures cause { result ≡ ConnEnd.WriteFault → Rose (K.faults output.old) (K.faults output.new) }
{
    conn.end();
    match advance(conn, host, output) {
        Progress::Waits => unreachable!(),
        Progress::Closes(how) => ConnEnd::Closed(how),
        Progress::Fails => ConnEnd::WriteFault,
    }
}

// Does what the connection needs, up to the next bytes, or its close.
fn advance<R: Drop, P: Drop, T, H: Host<R, P, T>, K: Sink>(
    conn: &mut Conn<R, P, T>,
    host: &mut H,
    output: &mut K,
) -> Progress
    requires runs { IsServing H.serves conn.old (H.desk host.old) (K.held output.old) }
    requires held { IsHeld H.holds (H.desk host.old) conn.old }
    requires ready { H.ready host.old }
    ensures progresses { Progresses result H.serves
        conn.old conn.new (H.desk host.old) (H.desk host.new) (K.held output.old) (K.held output.new) }
    ensures free { IsFree conn.new }
    ensures fixed { H.fixed host.new ≡ H.fixed host.old }
    ensures ready { H.ready host.new }
    ensures later { K.faults output.old ≤ K.faults output.new }
    ensures cause { result ≡ Progress.Fails → Rose (K.faults output.old) (K.faults output.new) }
{
    loop {
        if let Some(progress) = step(conn, host, output) {
            return progress;
        }
    }
}

// Does the next thing that the connection needs; `Some` where that is bytes, or its close.
fn step<R: Drop, P: Drop, T, H: Host<R, P, T>, K: Sink>(
    conn: &mut Conn<R, P, T>,
    host: &mut H,
    output: &mut K,
) -> Option<Progress>
    requires runs { IsServing H.serves conn.old (H.desk host.old) (K.held output.old) }
    requires held { IsHeld H.holds (H.desk host.old) conn.old }
    requires ready { H.ready host.old }
    ensures stepped { Stepped result H.serves
        conn.old conn.new (H.desk host.old) (H.desk host.new) (K.held output.old) (K.held output.new) }
    ensures held { IsHeld H.holds (H.desk host.new) conn.new }
    ensures free { result ≢ None → IsFree conn.new }
    ensures fixed { H.fixed host.new ≡ H.fixed host.old }
    ensures ready { H.ready host.new }
    ensures fewer { result ≡ None → calls_left conn.new < calls_left conn.old }
    ensures later { K.faults output.old ≤ K.faults output.new }
    ensures cause { result ≡ Some Progress.Fails → Rose (K.faults output.old) (K.faults output.new) }
{
    match conn.need() {
        Need::Bytes => Some(Progress::Waits),
        Need::Close => Some(Progress::Closes(closing(conn))),
        Need::Write => match write(conn, host, output) {
            Wrote::All => None,
            Wrote::Failed => Some(Progress::Fails),
        },
        _ => {
            act(conn, host);
            None
        }
    }
}

// Writes what is to be written, and tells the host where all of it was.
fn write<R, P, T, H: Host<R, P, T>, K: Sink>(
    conn: &mut Conn<R, P, T>,
    host: &mut H,
    output: &mut K,
) -> Wrote
    requires at { At Need.Write conn.old.broken conn.old.stage }
    requires ready { H.ready host.old }
    ensures writes { WritesOut result conn.old conn.new (K.held output.old) (K.held output.new) }
    ensures kept { H.desk host.new ≡ H.desk host.old }
    ensures fixed { H.fixed host.new ≡ H.fixed host.old }
    ensures ready { H.ready host.new }
    ensures fewer { result ≡ Wrote.All → calls_left conn.new < calls_left conn.old }
    ensures later { K.faults output.old ≤ K.faults output.new }
    ensures cause { result ≡ Wrote.Failed → Rose (K.faults output.old) (K.faults output.new) }
{
    match write_whole(output, conn.out()) {
        Wrote::Failed => Wrote::Failed,
        Wrote::All => {
            conn.written();
            host.written();
            Wrote::All
        }
    }
}

// How it closes.
fn closing<R, P, T>(conn: &Conn<R, P, T>) -> Closing
    requires { At Need.Close conn.now.broken conn.now.stage }
    ensures { (s : State R P T) → Stands conn.now s → Closes conn.now s result }
{
    match conn.closing() {
        Some(how) => how,
        None => unreachable!(),
    }
}
