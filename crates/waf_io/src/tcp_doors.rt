ghost use Rattle.std.specs.Prelude.{◌≡◌, ◌≤◌, ◌+◌, IfOk, length, nat_le, None};
ghost use Rattle.std.specs.List.{All, list_any};
ghost use Rattle.waf_io.specs.Counts.{one_more};
ghost use Rattle.waf_io.specs.Doors.{after_faults};
ghost use Rattle.waf_io.specs.Tcp.{IsNewTcp};

use crate::tcp_door::TcpDoor;
use crate::{Doors, Opened};
use std::alloc::{AllocError, AllocFailed, Global};
use std::io;
use std::net::{Net, SocketAddr, TcpListener, TcpStream};
use std::sync::Arc;
use std::sync::atomic::{AtomicBool, Ordering};
use std::time::Duration;
use waf_plain::{NoMemory, Seq};

/// TCP listeners: at an opening one is bound to the address, an IP address or a host's name and a port, and
/// each door has a handle of it. They are opened again only when all doors are back.
#[derive(Drop)]
pub struct TcpDoors<'a, R: Net<Listener = TcpListener, Stream = TcpStream>> {
    rt: &'a R,
    opening: Option<Opening>,
    out: u64,
    faults: u64,
}

// Where the doors that are out listen, and what shuts them.
#[derive(Drop)]
struct Opening {
    address: SocketAddr,
    is_shut: Arc<AtomicBool, Global>,
}

// Why no doors were opened.
enum OpenFault {
    System,
    NoMemory,
}

impl From<io::Error> for OpenFault {
    fn from(_error: io::Error) -> OpenFault {
        OpenFault::System
    }
}

impl From<AllocError> for OpenFault {
    fn from(_error: AllocError) -> OpenFault {
        OpenFault::NoMemory
    }
}

impl<T: Drop> From<AllocFailed<T>> for OpenFault {
    fn from(_error: AllocFailed<T>) -> OpenFault {
        OpenFault::NoMemory
    }
}

impl From<NoMemory> for OpenFault {
    fn from(_error: NoMemory) -> OpenFault {
        OpenFault::NoMemory
    }
}

impl<'a, R: Net<Listener = TcpListener, Stream = TcpStream>> TcpDoors<'a, R> {
    /// No door, with a count of 0.
    pub fn new(rt: &'a R) -> TcpDoors<'a, R>
        ensures out { result.out ≡ 0 }
        ensures faults { result.faults ≡ 0 }
    {
        TcpDoors {
            rt,
            opening: None,
            out: 0,
            faults: 0,
        }
    }

    /// The address at which the doors that are out listen.
    pub fn address(&self) -> Option<SocketAddr> {
        match &self.opening {
            Some(opening) => Some(opening.address),
            None => None,
        }
    }

    // Counts a fault.
    fn count_fault(&mut self)
        ensures later { self.old.faults ≤ self.new.faults }
        ensures counted { self.new ≡ record self.old { faults = one_more self.old.faults } }
    {
        self.faults = self.faults.saturating_add(1);
    }

    // Binds a listener, and makes so many doors of it.
    fn listen(
        &mut self,
        alloc: Global,
        address: &str,
        count: u32,
    ) -> Result<Seq<TcpDoor>, OpenFault>
        ensures count { IfOk result (λ doors. length doors ≡ count) }
        ensures new { IfOk result (λ doors. All IsNewTcp doors) }
        ensures same { (self.new.out ≡ self.old.out) × (self.new.faults ≡ self.old.faults) }
    {
        let listener = TcpListener::bind(self.rt, address)?;
        let address = listener.local_addr()?;
        let is_shut = Arc::new(alloc, AtomicBool::new(false))?;
        let doors = doors_of(alloc, &listener, &is_shut, count)?;
        self.opening = Some(Opening { address, is_shut });
        Ok(doors)
    }
}

// So many doors of that listener.
fn doors_of(
    alloc: Global,
    listener: &TcpListener,
    is_shut: &Arc<AtomicBool, Global>,
    count: u32,
) -> Result<Seq<TcpDoor>, OpenFault>
    ensures count { IfOk result (λ doors. length doors ≡ count) }
    ensures new { IfOk result (λ doors. All IsNewTcp doors) }
{
    let mut doors = Seq::new(alloc);
    while doors.len() < u64::from(count) {
        doors.push(TcpDoor::new(listener.try_clone()?, Arc::try_clone(is_shut)?))?;
    }
    Ok(doors)
}

impl<'a, R: Net<Listener = TcpListener, Stream = TcpStream>> Doors for TcpDoors<'a, R> {
    type D = TcpDoor;

    ghost out = { λ s. s.out };

    ghost returned = { λ s. None };

    ghost faults = { λ s. s.faults };

    fn open_doors(&mut self, alloc: Global, address: &[u8], count: u32) -> Opened<TcpDoor> {
        let opened = match std::str::from_utf8(address) {
            Ok(address) if self.out == 0 => self.listen(alloc, address, count),
            _ => Err(OpenFault::System),
        };
        match opened {
            Ok(doors) => {
                self.out = u64::from(count);
                Opened::Doors(doors)
            }
            Err(OpenFault::NoMemory) => Opened::NoMemory,
            Err(OpenFault::System) => {
                self.count_fault();
                Opened::Failed
            }
        }
    }

    /// Sets the flag that the doors read, and wakes each that waits by a connection.
    fn shut(&mut self) {
        let Some(opening) = &self.opening else {
            return;
        };
        opening.is_shut.store(true, Ordering::SeqCst);
        for _ in 0..self.out {
            let _ = TcpStream::connect_timeout(self.rt, &opening.address, Duration::from_secs(1));
        }
    }

    fn take_back(&mut self, doors: Seq<TcpDoor>)
        requires within { length doors ≤ self.old.out }
        ensures out { self.new.out + length doors ≡ self.old.out }
        ensures faults { self.new.faults ≡ after_faults (λ d. d.faults) doors self.old.faults }
    {
        if any_failed(doors.as_slice()) {
            self.count_fault();
        }
        self.out -= doors.len();
    }
}

// Whether one of the doors has failed.
fn any_failed(doors: &[TcpDoor]) -> bool
    ensures { result ≡ list_any (λ d. nat_le 1 d.faults) doors.now }
{
    for door in doors {
        if door.has_failed() {
            return true;
        }
    }
    false
}
