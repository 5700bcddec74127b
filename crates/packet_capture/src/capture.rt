//! The packets of a capture file, in the order in which they stand in it.

use crate::blocks::{SECTION_HEADER, read_blocks};
use crate::classic::{form_of, read_classic};
use crate::fault::CaptureFault;
use crate::order::{ByteOrder, word};
use crate::packet::Packet;
use std::alloc::Global;

/// The packets of a capture file, classic or pcapng. A file that is cut off in an item, or that has a packet whose link type isn't
/// known, is refused.
pub fn read_packets<'a>(alloc: Global, bytes: &'a [u8]) -> Result<Vec<Packet<'a>>, CaptureFault> {
    let Some(first) = word(ByteOrder::Big, bytes) else {
        return Err(CaptureFault::BadMagic);
    };
    if first == SECTION_HEADER {
        return read_blocks(alloc, bytes);
    }
    match form_of(first) {
        Some(form) => read_classic(alloc, form, bytes),
        None => Err(CaptureFault::BadMagic),
    }
}
