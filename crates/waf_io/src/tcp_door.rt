ghost use Rattle.std.specs.Prelude.{◌≡◌, ◌≤◌, false, nat_le, None};
ghost use Rattle.waf_io.specs.Counts.{one_more, Rose};
ghost use Rattle.waf_io.specs.Door.{CountsClosed, gave_peer};

use crate::{Came, Door, ReadSource, WriteSink};
use std::alloc::Global;
use std::io;
use std::io::ErrorKind;
use std::net::{TcpListener, TcpStream};
use std::sync::atomic::{AtomicBool, Ordering};
use std::sync::{Arc, Wait};

/// A handle of a TCP listener. It tells nothing of the peers that come and of those that came back; a peer
/// that comes back is disconnected.
#[derive(Drop)]
pub struct TcpDoor {
    listener: TcpListener,
    is_shut: Arc<AtomicBool, Global>,
    is_out: bool,
    faults: u64,
    closings: u64,
}

/// What a peer sends.
pub type TcpSource = ReadSource<TcpStream>;

/// What a peer is sent.
pub type TcpSink = WriteSink<TcpStream>;

impl TcpDoor {
    // A door with counts of 0 that is shut by this flag.
    pub(crate) fn new(listener: TcpListener, is_shut: Arc<AtomicBool, Global>) -> TcpDoor
        ensures out { result.is_out ≡ false }
        ensures counts { (result.faults ≡ 0) × (result.closings ≡ 0) }
    {
        TcpDoor {
            listener,
            is_shut,
            is_out: false,
            faults: 0,
            closings: 0,
        }
    }

    // Whether one of its calls has failed.
    pub(crate) fn has_failed(&self) -> bool
        ensures { result ≡ nat_le 1 self.now.faults }
    {
        self.faults >= 1
    }

    fn is_shut(&self) -> bool {
        self.is_shut.load(Ordering::SeqCst)
    }

    // The next connection. It gives none where the doors were shut meanwhile, or the peer left.
    fn accept(&self) -> io::Result<Option<TcpStream>> {
        match self.listener.accept() {
            Ok((stream, _)) => Ok(if self.is_shut() { None } else { Some(stream) }),
            Err(error) => match error.kind() {
                ErrorKind::ConnectionAborted | ErrorKind::Interrupted => Ok(None),
                _ => Err(error),
            },
        }
    }

    fn fail(&mut self) -> Came<TcpSource, TcpSink>
        ensures answer { result ≡ Came.Failed }
        ensures later { self.old.faults ≤ self.new.faults }
        ensures counted { self.new ≡ record self.old { faults = one_more self.old.faults } }
    {
        self.faults = self.faults.saturating_add(1);
        Came::Failed
    }

    fn close(&mut self) -> Came<TcpSource, TcpSink>
        ensures answer { result ≡ Came.Closed }
        ensures counted { self.new ≡ record self.old { closings = one_more self.old.closings } }
    {
        self.closings = self.closings.saturating_add(1);
        Came::Closed
    }

    // The peer of a connection, which sends small packets at once where the system lets it.
    fn meet(&mut self, stream: TcpStream) -> Came<TcpSource, TcpSink>
        requires { self.old.is_out ≡ false }
        ensures out { self.new.is_out ≡ gave_peer result }
        ensures later { self.old.faults ≤ self.new.faults }
        ensures cause { result ≡ Came.Failed → Rose self.old.faults self.new.faults }
        ensures closed { CountsClosed result self.old.closings self.new.closings }
    {
        let _ = stream.set_nodelay(true);
        match stream.try_clone() {
            Ok(reader) => {
                self.is_out = true;
                Came::Peer(ReadSource::new(reader), WriteSink::new(stream))
            }
            Err(_) => self.fail(),
        }
    }
}

impl Door for TcpDoor {
    type In = TcpSource;

    type Out = TcpSink;

    ghost left = { λ s. None };

    ghost served = { λ s. None };

    ghost is_out = { λ s. s.is_out };

    ghost faults = { λ s. s.faults };

    ghost closings = { λ s. s.closings };

    fn next<W: Wait>(&mut self, rt: &W) -> Came<TcpSource, TcpSink> {
        for _ in rt.forever() {
            if self.is_shut() {
                return self.close();
            }
            match self.accept() {
                Ok(Some(stream)) => return self.meet(stream),
                Ok(None) => {}
                Err(_) => return self.fail(),
            }
        }
        unreachable!()
    }

    fn back(&mut self, _source: TcpSource, _sink: TcpSink) {
        self.is_out = false;
    }
}
