ghost use Rattle.std.specs.Prelude.{◌≡◌, ◌≤◌, ℕ, None, length, IfOk};

use crate::address::{Address, LoopHost};
use crate::link::{LONGEST_REPLY, Link, Lost};
use std::alloc::AllocError;
use std::io::{self, ErrorKind, Read, Write};
use std::marker::Model;
use std::net::{IpAddr, Ipv4Addr, Ipv6Addr, Net, OpenStream, SocketAddr, TcpStream};
use std::time::Duration;

/// The most reads of one reply: one a byte, the one that finds the end, and as many again that a signal broke off.
const MOST_READS: usize = 2 * (LONGEST_REPLY + 1);
/// How long a connect, a write and a read may take each.
const PATIENCE_SECONDS: u64 = 30;

/// A link over TCP, a connection for each request. It connects to 127.0.0.1 or to [::1], writes the request and
/// reads to the end of the connection or `LONGEST_REPLY` bytes; where one of these fails, or takes more than 30
/// seconds, the request is lost. It tells nothing of what it sends.
#[derive(Drop)]
pub struct TcpLink<R> {
    rt: R,
    sends_left: u8,
    most_bytes: usize,
    losses: u64,
}

impl<R> Model for TcpLink<R> {
    ghost use Rattle.target_link.specs.Tcp.{Counters};

    ghost Value = { Counters };

    ghost view = { λ l. record { sends_left = l.sends_left; most_bytes = l.most_bytes; losses = l.losses } };
}

impl<R: Net> TcpLink<R> {
    /// A link that has sent nothing.
    pub fn new(rt: R) -> TcpLink<R>
        ensures { result.losses ≡ 0 }
    {
        TcpLink {
            rt,
            sends_left: 0,
            most_bytes: 0,
            losses: 0,
        }
    }

    /// How many requests were lost.
    pub fn losses(&self) -> u64
        ensures { result ≡ self.now.losses }
    {
        self.losses
    }
}

impl<R: Net> Link for TcpLink<R> {
    ghost told = { λ _. None };

    ghost losses = { λ l. l.losses };

    ghost sends_left = { λ l. l.sends_left };

    ghost most_bytes = { λ l. l.most_bytes };

    fn ready(&mut self, sends: u8, longest: usize) -> Result<(), AllocError> {
        self.sends_left = sends;
        self.most_bytes = longest;
        Ok(())
    }

    fn send(&mut self, to: Address, request: &[u8], reply: &mut [u8]) -> Result<usize, Lost> {
        self.sends_left -= 1;
        match exchange(&self.rt, to, request, reply) {
            Ok(n) => Ok(n),
            Err(_) => {
                self.losses = self.losses.saturating_add(1);
                Err(Lost)
            }
        }
    }
}

/// Sends a request over a connection of its own, and answers how many bytes of a reply came.
fn exchange<R: Net>(rt: &R, to: Address, request: &[u8], reply: &mut [u8]) -> io::Result<usize>
    ensures { IfOk result (λ n. n ≤ length reply.old) }
{
    let patience = Duration::from_secs(PATIENCE_SECONDS);
    let mut stream = TcpStream::connect_timeout(rt, &socket_address(to), patience)?;
    stream.set_write_timeout(Some(patience))?;
    stream.set_read_timeout(Some(patience))?;
    stream.write_all(request)?;
    let most = reply.len().min(LONGEST_REPLY);
    read_to_end(&mut stream, &mut reply[..most])
}

fn socket_address(address: Address) -> SocketAddr {
    let ip = match address.host {
        LoopHost::V4 | LoopHost::Name => IpAddr::V4(Ipv4Addr::LOCALHOST),
        LoopHost::V6 => IpAddr::V6(Ipv6Addr::LOCALHOST),
    };
    SocketAddr::new(ip, address.port)
}

/// Reads to the end, or until `reply` is full, and answers how many bytes came.
fn read_to_end<S: Read>(stream: &mut S, reply: &mut [u8]) -> io::Result<usize>
    ensures { IfOk result (λ n. n ≤ length reply.old) }
{
    let mut filled = 0;
    for _ in 0..MOST_READS {
        // A read into no room would wait for bytes that may never come.
        if filled == reply.len() {
            return Ok(filled);
        }
        match stream.read(&mut reply[filled..]) {
            Ok(0) => return Ok(filled),
            Ok(n) => filled += n,
            Err(error) if error.kind() == ErrorKind::Interrupted => {}
            Err(error) => return Err(error),
        }
    }
    Err(io::Error::from(ErrorKind::Interrupted))
}
