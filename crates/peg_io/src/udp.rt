// The wire of the system: UDP sockets of 127.0.0.1. It tells nothing of what they carry.
ghost use Rattle.std.specs.Prelude.{◌≡◌, ◌+◌, ◌<◌, ◌≤◌, None, IsNone, IfOk, IfSome, length};
ghost use Rattle.std.specs.Io.{ReadsAtMost};
ghost use Rattle.peg_io.specs.Outside.{Rose, HeardIn};

use crate::{Heard, OutOfMemory, Wire};
use std::alloc::Global;
use std::io::{self, ErrorKind};
use std::marker::Model;
use std::net::{Ipv4Addr, Net, SocketAddr, SocketAddrV4, UdpSocket};
use std::time::Duration;

#[cfg(test)]
mod tests;

// A controller, 4 switches, 64 servers and 1,024 clients.
const ROOM: usize = 1093;

// The system's wait goes some milliseconds past its limit: so a receive stays below 50.
const WAIT_MILLIS: u64 = 40;

/// A wire over UDP sockets of 127.0.0.1, at most 1,093 of them. An error of a socket is a fault. A
/// receive gives a pause where no datagram came within 50 milliseconds, and at once where several
/// sockets are bound and not as many receives in a row as there are others gave nothing: so a round
/// over all of them waits once. A datagram that is longer than the buffer is cut to it.
#[derive(Drop)]
pub struct UdpWire<N> {
    net: N,
    sockets: Vec<UdpSocket>,
    // How many receives in a row gave nothing at once.
    quiet: usize,
    faults: u64,
    lost: u64,
}

impl<N> Model for UdpWire<N> {
    ghost use Rattle.std.specs.Prelude.{◌≤◌, vec_capacity, vec_len};
    ghost use Rattle.peg_io.specs.Outside.{SocketCounts};

    ghost Value = { SocketCounts };

    ghost view = { λ w. record { slots = vec_len w.sockets; faults = w.faults; lost = w.lost } };

    ghost invariant = { λ w. 1093 ≤ vec_capacity w.sockets };
}

impl<N: Net + Drop> UdpWire<N> {
    /// A wire with no socket yet, and with room for all. It binds by the network that it is given.
    ///
    /// `OutOfMemory` where there is none for that room.
    pub fn make(alloc: Global, net: N) -> Result<UdpWire<N>, OutOfMemory>
        ensures { IfOk result (λ w. w ≡ record { slots = 0; faults = 0; lost = 0 }) }
    {
        let sockets = Vec::with_capacity(alloc, ROOM)?;
        Ok(UdpWire {
            net,
            sockets,
            quiet: 0,
            faults: 0,
            lost: 0,
        })
    }
}

impl<N: Net> UdpWire<N> {
    // The only socket waits for a datagram. Of several each answers at once.
    fn open(&self, port: u16) -> io::Result<UdpSocket> {
        let socket = UdpSocket::bind(&self.net, local(port))?;
        socket.set_read_timeout(Some(Duration::from_millis(WAIT_MILLIS)))?;
        if let Some(first) = self.sockets.first() {
            socket.set_nonblocking(true)?;
            first.set_nonblocking(true)?;
        }
        Ok(socket)
    }

    fn hear(&mut self, slot: usize, buf: &mut [u8]) -> io::Result<usize>
        requires { slot < self.old.slots }
        ensures heard { ReadsAtMost result buf.new }
        ensures same { self.new ≡ self.old }
    {
        let others = self.sockets.len() - 1;
        let socket = &self.sockets[slot];
        if self.quiet < others {
            self.quiet += 1;
            return socket.recv(buf);
        }
        self.quiet = 0;
        if others == 0 {
            return socket.recv(buf);
        }
        socket.set_nonblocking(false)?;
        let heard = socket.recv(buf);
        socket.set_nonblocking(true)?;
        heard
    }
}

impl<N: Net> Wire for UdpWire<N> {
    ghost carried = { λ _. None };

    ghost slots = { λ w. w.slots };

    ghost faults = { λ w. w.faults };

    ghost lost = { λ w. w.lost };

    fn bind(&mut self, port: u16) -> Option<u32>
        ensures slot { IfSome result (λ slot. slot ≡ self.old.slots) }
        ensures bound { IfSome result (λ _. self.new.slots ≡ self.old.slots + 1) }
        ensures room { 1093 ≤ self.old.slots → IsNone result }
        ensures refused { IsNone result → self.new.slots ≡ self.old.slots }
        ensures cause { IsNone result → Rose self.old.faults self.new.faults }
        ensures later { self.old.faults ≤ self.new.faults }
        ensures later_lost { self.new.lost ≡ self.old.lost }
    {
        let slot = self.sockets.len();
        if slot < ROOM {
            if let Ok(socket) = self.open(port) {
                self.sockets.push_reserved(socket);
                return Some(slot as u32);
            }
        }
        self.faults = self.faults.saturating_add(1);
        None
    }

    fn receive(&mut self, slot: u32, buf: &mut [u8]) -> Heard {
        match self.hear(slot as usize, buf) {
            Ok(count) => {
                self.quiet = 0;
                Heard::Bytes(count)
            }
            Err(e) if is_pause(&e) => Heard::Nothing,
            Err(_) => {
                self.faults = self.faults.saturating_add(1);
                Heard::Failed
            }
        }
    }

    fn send(&mut self, slot: u32, port: u16, bytes: &[u8]) -> bool {
        let sent = match self.sockets.get(slot as usize) {
            Some(socket) => matches!(
                socket.send_to(bytes, local(port)),
                Ok(count) if count == bytes.len()
            ),
            None => false,
        };
        if !sent {
            self.lost = self.lost.saturating_add(1);
        }
        sent
    }
}

fn local(port: u16) -> SocketAddr {
    SocketAddr::V4(SocketAddrV4::new(Ipv4Addr::LOCALHOST, port))
}

// A wait that ended with no datagram: by its limit, or by a signal.
fn is_pause(e: &io::Error) -> bool {
    matches!(
        e.kind(),
        ErrorKind::WouldBlock | ErrorKind::TimedOut | ErrorKind::Interrupted
    )
}
