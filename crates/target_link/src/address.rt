ghost use Rattle.std.specs.Prelude.{◌≡◌, None, Some, Ok, IfOk, IfErr};
ghost use Rattle.url.specs.Parser.{parse_url};
ghost use Rattle.target_link.specs.Address.{is_plain, loop_host, target_host, target_path, target_address, target_spot};

use plain_words::{Text, TryCopy};
use std::alloc::{AllocError, Global};
use url::{ParseError, Url};

/// The port of an http URL that names none.
const HTTP_PORT: u16 = 80;

/// The host of a target. All three are this machine.
#[derive(Debug, Clone, Copy, PartialEq, Eq)]
pub enum LoopHost {
    /// `127.0.0.1`.
    V4,
    /// `localhost`, which is taken as 127.0.0.1.
    Name,
    /// `[::1]`.
    V6,
}

/// Where a target listens.
#[derive(Debug, Clone, Copy, PartialEq, Eq)]
pub struct Address {
    /// The host, as the target's URL names it.
    pub host: LoopHost,
    /// The TCP port.
    pub port: u16,
}

/// A place at a target: where it listens and what is asked for there.
#[derive(Debug, PartialEq, Eq, Drop)]
pub struct Spot {
    /// Where it listens.
    pub address: Address,
    /// The path with its query, percent-encoded.
    pub path: Text,
}

impl TryCopy for Spot {
    fn copy(&self) -> Result<Spot, AllocError> {
        Ok(Spot {
            address: self.address,
            path: self.path.copy()?,
        })
    }
}

/// Why an arn gives no spot.
#[derive(Debug, Clone, Copy, PartialEq, Eq)]
pub enum SpotFault {
    /// The arn is no target address.
    NotATarget,
    /// There was no memory for the spot.
    OutOfMemory,
}

/// The spot that a target's arn names. The arn is to be an http URL (WHATWG URL Standard) without user, password
/// and fragment whose host is `127.0.0.1`, `localhost` or `[::1]`; the port is 80 where it names none.
/// `NotATarget` comes exactly where it is not.
pub fn address_of(alloc: Global, arn: &Text) -> Result<Spot, SpotFault>
    ensures ok { IfOk result (λ spot. target_spot arn.now ≡ Some spot) }
    ensures err { IfErr result (λ fault. fault ≡ SpotFault.NotATarget → target_spot arn.now ≡ None) }
{
    let url = read_url(alloc, arn.as_str())?;
    let Some(address) = address_in(&url) else {
        return Err(SpotFault::NotATarget);
    };
    match path_of(alloc, &url) {
        Ok(path) => Ok(Spot { address, path }),
        Err(_) => Err(SpotFault::OutOfMemory),
    }
}

/// The URL of a text.
fn read_url(alloc: Global, text: &str) -> Result<Url, SpotFault>
    ensures ok { IfOk result (λ url. parse_url None text.now ≡ Ok url) }
    ensures err { IfErr result (λ fault. fault ≡ SpotFault.NotATarget → target_spot text.now ≡ None) }
{
    match Url::parse(alloc, text) {
        Ok(url) => Ok(url),
        Err(ParseError::OutOfMemory | ParseError::Overflow) => Err(SpotFault::OutOfMemory),
        Err(_) => Err(SpotFault::NotATarget),
    }
}

/// Where a URL's target listens, if it is a target's.
fn address_in(url: &Url) -> Option<Address>
    ensures { result ≡ target_address url.now }
{
    if !is_plain(url) {
        return None;
    }
    match target_host(url) {
        Some(host) => Some(Address {
            host,
            port: url.port().unwrap_or(HTTP_PORT),
        }),
        None => None,
    }
}

/// Whether it is an http URL without user, password and fragment.
fn is_plain(url: &Url) -> bool
    ensures { result ≡ is_plain url.now }
{
    url.scheme() == "http"
        && url.username().is_empty()
        && url.password().is_none()
        && url.fragment().is_none()
}

fn target_host(url: &Url) -> Option<LoopHost>
    ensures { result ≡ target_host url.now }
{
    url.host_str().and_then(loop_host)
}

fn loop_host(host: &str) -> Option<LoopHost>
    ensures { result ≡ loop_host host.now }
{
    match host {
        "127.0.0.1" => Some(LoopHost::V4),
        "localhost" => Some(LoopHost::Name),
        "[::1]" => Some(LoopHost::V6),
        _ => None,
    }
}

/// The path with its query.
fn path_of(alloc: Global, url: &Url) -> Result<Text, AllocError>
    ensures { IfOk result (λ path. path ≡ target_path url.now) }
{
    let mut path = String::from_str(alloc, url.path())?;
    if let Some(query) = url.query() {
        path.push_str("?")?;
        path.push_str(query)?;
    }
    Ok(Text::from_string(path))
}
