//! Items of external data representation, after RFC 4506: read from the front of some bytes, and
//! appended to some bytes. And the records of a stream of bytes, after RFC 5531, section 11.
#![tactic(auto)]

mod fault;
mod feed;
mod marked;
mod marking;
mod reader;
mod scan;
mod seam;
mod spelled;
mod split;
mod writer;

pub use fault::{FeedFault, XdrFault};
pub use feed::RecordFeed;
pub use marked::{calls_give_the_records, records_are_split_one_way};
pub use marking::frame;
pub use reader::Reader;
pub use scan::RECORD_LIMIT;
pub use spelled::{items_are_spelled, texts_are_spelled};
pub use writer::{put_fixed, put_flag, put_opaque, put_u32, put_u64};
