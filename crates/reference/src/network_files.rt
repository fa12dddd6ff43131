// The file of a network.
use super::arcs::Arc;
use super::instances::Net;
use std::alloc::{AllocError, Global};

// The mark DRN and the version 1, question, n, s and t, the count of the arcs, and the arcs.
pub fn file(alloc: Global, net: Net, arcs: &[Arc]) -> Result<Vec<u8>, AllocError> {
    let mut file = Vec::new(alloc);
    file.extend_from_slice(&[b'D', b'R', b'N', 0, 1])?;
    file.extend_from_slice(&[net.question as u8, net.n, net.s, net.t])?;
    file.extend_from_slice(&((arcs.len() & 0xffff) as u16).to_be_bytes())?;
    for arc in arcs {
        file.extend_from_slice(&<[u8; 4]>::from(*arc))?;
    }
    Ok(file)
}
