//! What the sessions of the tests call for.

use shared_pool_tests::Request;
use std::alloc::{AllocError, Global};
use zc_io::NoMemory;
use zp_names::Sequence;

/// A session with these calls.
pub fn session_of(alloc: Global, calls: &[Request]) -> Result<Sequence<Request>, NoMemory> {
    let mut session = Sequence::new(alloc);
    for call in calls {
        session.push(*call)?;
    }
    Ok(session)
}

/// So many sessions, each with so many additions of 1.
pub fn additions(
    alloc: Global,
    sessions: u32,
    calls: u32,
) -> Result<Vec<Sequence<Request>>, NoMemory> {
    let mut all = Vec::new(alloc);
    for _ in 0..sessions {
        let mut session = Sequence::new(alloc);
        for _ in 0..calls {
            session.push(Request::Add(1))?;
        }
        all.push(session)?;
    }
    Ok(all)
}
