//! Lines of bytes that are all there.
ghost use Rattle.std.specs.Prelude.{◌≡◌, ◌<◌, ◌≤◌, length};
ghost use Rattle.ff_io.specs.Cutting.{content, after_line};

use memchr::memchr;

/// The first line of some bytes, without its newline, and the bytes after it. Where there is no
/// newline all the bytes are the line.
#[tactic(auto, using(crate::proofs::Cuts::line_at, crate::proofs::Cuts::rest_at, crate::proofs::Cuts::line_whole, crate::proofs::Cuts::rest_none, crate::proofs::Cuts::fewer_after, crate::proofs::Cuts::content_short))]
pub fn split_line(bytes: &[u8]) -> (&[u8], &[u8])
    requires { 0 < length bytes.now }
    ensures line { result.0.now ≡ content bytes.now }
    ensures rest { result.1.now ≡ after_line bytes.now }
    ensures fewer { length result.1.now < length bytes.now }
    ensures short { length result.0.now ≤ length bytes.now }
{
    match memchr(b'\n', bytes) {
        Some(at) => (&bytes[..at], &bytes[at + 1..]),
        None => (bytes, &bytes[bytes.len()..]),
    }
}
