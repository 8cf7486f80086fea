ghost use Rattle.std.specs.Prelude.{◌≡◌, ◌≢◌, ◌≤◌, ◌⊎◌, ◌↔◌, ◌++◌, ◌==◌, ℕ, List, [], MatchOption, length, take, drop, not, IfOk, IfErr, OnOk, OnErr, IsTrue, slice_get};
ghost use Rattle.std.specs.List.{list_all};
ghost use Rattle.ff_name.specs.declared.urls.Url.{Url};
ghost use Rattle.ff_name.specs.declared.urls.UrlFault.{UrlFault};
ghost use Rattle.ff_name.specs.Address.{IsWellSpelled, Spells, Parts, PartFaults, Faults, ArePassed, printed, request_or_slash};
ghost use Rattle.ff_name.specs.Address as address;
ghost use Rattle.ff_contract.specs.Answering.{Answers};
ghost use Rattle.ff_contract.specs.Appending.{Appends};

use crate::domains::{Domain, is_domain};
use crate::texts::{NoMemory, Text};
use std::alloc::Global;
use thiserror::Error;

/// The most bytes that a request text may have.
pub const MOST_REQUEST_BYTES: usize = 2048;

/// An address: `about:blank`, or a domain and a request text.
#[derive(Debug, PartialEq, Eq, Hash)]
pub enum Url {
    /// `about:blank`.
    Blank,
    /// `http://`, this domain, and this request text. A well spelled one begins with `/` and has at
    /// most 2,048 bytes.
    At(Domain, Text),
}

// Written out, so that the proof of a caller sees one call and not a case for each variant.
impl Drop for Url {
    fn drop(self) {
        match self {
            Url::Blank => (),
            Url::At(_domain, _request) => (),
        }
    }
}

/// Why bytes are no address.
#[derive(Clone, Copy, Debug, PartialEq, Eq, Error)]
pub enum UrlFault {
    /// They are not `about:blank` and do not begin with `http://`.
    #[error("neither about:blank nor http")]
    Scheme,
    /// What stands before the next `/`, or the end, is no domain.
    #[error("no domain")]
    Domain,
    /// The request text has a byte that may not stand there.
    #[error("a wrong byte in the request text")]
    Uri,
    /// The request text has over 2,048 bytes.
    #[error("a request text that is too long")]
    Long,
    /// There was no memory for the address.
    #[error("out of memory")]
    NoMemory,
}

impl Url {
    /// The address that these bytes spell, or the first fault in the order of `UrlFault`.
    pub fn read(alloc: Global, bytes: &[u8]) -> Result<Url, UrlFault>
        ensures found { IfOk result (Spells bytes.now) }
        ensures well_spelled { IfOk result IsWellSpelled }
        ensures only { (url : Url) → Spells bytes.now url
            → Answers result (Ok url) (Err UrlFault.NoMemory) }
        // What is printed for an address is read back as that address.
        ensures again { (url : Url) → IsWellSpelled url → bytes.now ≡ printed url
            → Answers result (Ok url) (Err UrlFault.NoMemory) }
        ensures fault { IfErr result (λ fault. (fault ≡ UrlFault.NoMemory)
            ⊎ Faults bytes.now fault) }
        ensures exact { (fault : UrlFault) → Faults bytes.now fault → result ≡ Err fault }
    {
        if is_blank(bytes) {
            return Ok(Url::Blank);
        }
        let Some(rest) = strip_scheme(bytes) else {
            return Err(UrlFault::Scheme);
        };
        let (host, request) = split_at_slash(rest);
        read_parts(alloc, host, request)
    }

    /// Appends the spelling of the address. After `NoMemory` a front of it was appended.
    pub fn print(&self, out: &mut Vec<u8>) -> Result<(), NoMemory>
        ensures { Appends result out.old.items out.new.items (printed self.now) }
    {
        match self {
            Url::Blank => out.extend_from_slice(b"about:blank"),
            Url::At(domain, request) => {
                out.extend_from_slice(b"http://")?;
                out.extend_from_slice(domain.text().as_bytes())?;
                out.extend_from_slice(request.as_bytes())
            }
        }
    }

    /// An equal address. It shares the bytes and copies none.
    pub fn copy(&self) -> Result<Url, NoMemory>
        ensures { IfOk result (λ url. url ≡ self.now) }
    {
        match self {
            Url::Blank => Ok(Url::Blank),
            Url::At(domain, request) => Ok(Url::At(domain.copy()?, request.copy()?)),
        }
    }
}

fn is_blank(bytes: &[u8]) -> bool
    ensures { IsTrue result ↔ (bytes.now ≡ address.blank) }
{
    bytes == b"about:blank".as_slice()
}

fn strip_scheme(bytes: &[u8]) -> Option<&[u8]>
    ensures { MatchOption result ((rest : List ℕ) → bytes.now ≢ address.scheme ++ rest)
        (λ rest. bytes.now ≡ address.scheme ++ rest.now) }
{
    bytes.strip_prefix(b"http://")
}

fn read_parts(alloc: Global, host: &[u8], request: &[u8]) -> Result<Url, UrlFault>
    ensures found { IfOk result (λ url. ArePassed host.now request.now
        × (url ≡ Url.At host.now (request_or_slash request.now))) }
    ensures fault { IfErr result (λ fault. ((fault ≡ UrlFault.NoMemory)
        × ArePassed host.now request.now) ⊎ PartFaults host.now request.now fault) }
{
    if let Err(fault) = check_parts(host, request) {
        return Err(fault);
    }
    match at_parts(alloc, host, request) {
        Ok(url) => Ok(url),
        Err(_) => Err(UrlFault::NoMemory),
    }
}

/// The bytes before the first `/`, and those from it on.
fn split_at_slash(bytes: &[u8]) -> (&[u8], &[u8])
    ensures { Parts bytes.now result.0.now result.1.now }
{
    let at = slash_place(bytes);
    bytes.split_at(at)
}

/// The place of the first `/`, or else the end.
fn slash_place(bytes: &[u8]) -> usize
    ensures within { result ≤ length bytes.now }
    ensures before { IsTrue (list_all (λ b. not (b == 47)) (take result bytes.now)) }
    ensures at { (drop result bytes.now ≡ []) ⊎ (slice_get (drop result bytes.now) 0 ≡ Some 47) }
{
    for (i, b) in bytes.iter().enumerate() {
        if *b == b'/' {
            return i;
        }
    }
    bytes.len()
}

fn check_parts(host: &[u8], request: &[u8]) -> Result<(), UrlFault>
    ensures done { OnOk result (ArePassed host.now request.now) }
    ensures fault { IfErr result (PartFaults host.now request.now) }
{
    if !is_domain(host) {
        return Err(UrlFault::Domain);
    }
    if !all_stand_in_request(request) {
        return Err(UrlFault::Uri);
    }
    if request.len() > MOST_REQUEST_BYTES {
        return Err(UrlFault::Long);
    }
    Ok(())
}

fn all_stand_in_request(bytes: &[u8]) -> bool
    ensures { result ≡ list_all address.stands_in_request bytes.now }
{
    bytes.iter().all(|b| stands_in_request(*b))
}

fn stands_in_request(b: u8) -> bool
    ensures { result ≡ address.stands_in_request b }
{
    b.is_ascii_graphic() && !(b == b'"' || b == b'(' || b == b')' || b == b'\\' || b == b'#')
}

fn at_parts(alloc: Global, host: &[u8], request: &[u8]) -> Result<Url, NoMemory>
    requires { ArePassed host.now request.now }
    ensures { IfOk result (λ url. url ≡ Url.At host.now (request_or_slash request.now)) }
{
    let domain = Domain::of_spelled(alloc, host)?;
    let text = request_text(alloc, request)?;
    Ok(Url::At(domain, text))
}

#[tactic(auto, using(crate::proofs::Ascii::utf8))]
fn request_text(alloc: Global, request: &[u8]) -> Result<Text, NoMemory>
    requires { IsTrue (list_all address.stands_in_request request.now) }
    ensures { IfOk result (λ text. text ≡ request_or_slash request.now) }
{
    if request.is_empty() {
        Text::of_utf8(alloc, b"/")
    } else {
        Text::of_utf8(alloc, request)
    }
}
