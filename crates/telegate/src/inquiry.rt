//! One request to a listener of the system.

use std::alloc::Global;
use std::io;
use std::io::{ErrorKind, Read, Write};
use std::net::{Net, TcpStream, ToSocketAddrs};
use std::time::Duration;

/// How long each step waits for the other side, in ms.
// A listener answers between two events of its run, and gives a visitor two seconds.
const WAIT_MS: u64 = 3000;

/// How many octets of an answer are read at the most.
// The largest page stays far below it.
const MOST: u64 = 1_048_576;

/// What is answered to a request at a place, as HOST:PORT, up to the end of the connection.
pub(crate) fn ask_at<R: Net<Stream = TcpStream>>(
    rt: &R,
    alloc: Global,
    place: &str,
    request: &[u8],
) -> io::Result<Vec<u8>> {
    let mut stream = connect(rt, place)?;
    stream.set_read_timeout(Some(Duration::from_millis(WAIT_MS)))?;
    stream.set_write_timeout(Some(Duration::from_millis(WAIT_MS)))?;
    stream.write_all(request)?;
    let mut answer = Vec::new(alloc);
    match stream.take(MOST).read_to_end(&mut answer) {
        Ok(_) => Ok(answer),
        // So the system says that nothing came in time.
        Err(fault) if fault.kind() == ErrorKind::WouldBlock => {
            Err(io::Error::from(ErrorKind::TimedOut))
        }
        Err(fault) => Err(fault),
    }
}

/// A connection to the first address that answers.
fn connect<R: Net<Stream = TcpStream>>(rt: &R, place: &str) -> io::Result<TcpStream> {
    let mut last = io::Error::from(ErrorKind::NotFound);
    for address in place.to_socket_addrs(rt)? {
        match TcpStream::connect_timeout(rt, &address, Duration::from_millis(WAIT_MS)) {
            Ok(stream) => return Ok(stream),
            Err(fault) => last = fault,
        }
    }
    Err(last)
}
