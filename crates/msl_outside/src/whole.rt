ghost use Rattle.msl_outside.specs.Fetching.{Fetches, FetchCause};

use crate::{Bytes, Fetched, Source};
use std::alloc::Global;

/// Reads a source to its end, where that has at most `limit` bytes. It fails only where the source does.
// Inlined, its piece would stand among the variables of the caller's whole run.
#[inline(never)]
pub fn read_whole<S: Source>(alloc: Global, src: &mut S, limit: usize) -> Fetched
    ensures file { Fetches (S.left src.old) limit result }
    ensures cause { FetchCause (S.faults src.old) (S.faults src.new) result }
{
    let mut bytes = Vec::new(alloc);
    let mut piece = [0u8; 4096];
    'pieces: loop {
        match src.read(&mut piece) {
            Ok(0) => return Fetched::Bytes(Bytes::from_vec(bytes)),
            Ok(n) => {
                if n > limit - bytes.len() {
                    return Fetched::Long;
                }
                if bytes.extend_from_slice(&piece[..n]).is_err() {
                    return Fetched::NoMemory;
                }
            }
            Err(_) => return Fetched::Failed,
        }
    }
}
