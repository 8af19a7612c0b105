use std::alloc::Global;
use std::io::{self, Read, Write};
use std::net::{Net, Shutdown, TcpStream};
use std::sync::atomic::{AtomicBool, Ordering};

// An input of orders that calls the agent over a socket when it is read, and then ends.
#[derive(Drop)]
pub(crate) struct Caller<'a, R: Net<Stream = TcpStream>> {
    pub(crate) rt: &'a R,
    pub(crate) alloc: Global,
    pub(crate) address: &'a str,
    pub(crate) sends: &'a [u8],
    pub(crate) wanted: &'a [u8],
    // whether the agent has answered with what is wanted, and nothing else
    pub(crate) is_told: &'a AtomicBool,
}

impl<R: Net<Stream = TcpStream>> Caller<'_, R> {
    fn call(&self) -> io::Result<bool> {
        let mut stream = TcpStream::connect(self.rt, self.address)?;
        stream.write_all(self.sends)?;
        stream.shutdown(Shutdown::Write)?;
        let mut told = Vec::new(self.alloc);
        stream.read_to_end(&mut told)?;
        Ok(told.as_slice() == self.wanted)
    }
}

impl<R: Net<Stream = TcpStream>> Read for Caller<'_, R> {
    fn read(&mut self, _into: &mut [u8]) -> io::Result<usize> {
        if let Ok(true) = self.call() {
            self.is_told.store(true, Ordering::SeqCst);
        }
        Ok(0)
    }
}
