//! The connections of a capture, in the order of their first packets.

use crate::connection::Connection;
use crate::passed::PassedCounts;
use packet_capture::Packet;
use packet_layers::{Endpoint, Segment, segment_of};
use std::alloc::{AllocError, Global};
use std::collections::BTreeMap;

/// By how many nanoseconds a packet may be earlier than another that stands ahead of it in a file that is in order: packets that several
/// processors take are written a little later than they were seen, and each of them behind what caused it.
const TOLERANCE: u64 = 1_000_000;

/// Two ends, the lower one first.
#[derive(Clone, Copy, PartialEq, Eq, PartialOrd, Ord)]
struct Ends {
    low: Endpoint,
    high: Endpoint,
}

fn ends_of(segment: &Segment<'_>) -> Ends {
    let (source, destination) = (segment.source, segment.destination);
    if destination < source {
        Ends {
            low: destination,
            high: source,
        }
    } else {
        Ends {
            low: source,
            high: destination,
        }
    }
}

/// Where a segment's calls come from: the end that doesn't have the server's port, or whoever sent the segment.
fn client_of(segment: &Segment<'_>, port: u16) -> Endpoint {
    if segment.source.port == port && segment.destination.port != port {
        segment.destination
    } else {
        segment.source
    }
}

/// Where a segment's replies come from: its end that isn't the client's.
fn server_of(segment: &Segment<'_>, port: u16) -> Endpoint {
    if client_of(segment, port) == segment.source {
        segment.destination
    } else {
        segment.source
    }
}

/// Connections, and which one is the last between two ends.
#[derive(Drop)]
struct Connections<'a> {
    all: Vec<Connection<'a>>,
    latest: BTreeMap<Ends, usize>,
    /// Where the first of them goes.
    server: Option<Endpoint>,
    /// How many go elsewhere.
    elsewhere: u64,
}

impl<'a> Connections<'a> {
    fn new(alloc: Global) -> Connections<'a> {
        Connections {
            all: Vec::new(alloc),
            latest: BTreeMap::new(alloc),
            server: None,
            elsewhere: 0,
        }
    }

    /// Counts a connection to this server, where the first went to another one.
    fn count_server(&mut self, server: Endpoint) {
        let known = self.server;
        let Some(first) = known else {
            self.server = Some(server);
            return;
        };
        if first != server {
            self.elsewhere = self.elsewhere.saturating_add(1);
        }
    }

    /// A connection more.
    fn begin(
        &mut self,
        alloc: Global,
        port: u16,
        segment: &Segment<'a>,
    ) -> Result<usize, AllocError> {
        let index = self.all.len();
        let connection = Connection::new(alloc, client_of(segment, port));
        self.all.push(connection)?;
        self.latest.insert(ends_of(segment), index)?;
        self.count_server(server_of(segment, port));
        Ok(index)
    }

    /// The connection of a segment, if it was there before.
    fn known(&self, segment: &Segment<'a>) -> Option<usize> {
        let index = *self.latest.get(&ends_of(segment))?;
        if self.all.get(index)?.is_over_by(segment) {
            return None;
        }
        Some(index)
    }

    /// Takes the segment of the packet of this index.
    fn put(
        &mut self,
        alloc: Global,
        port: u16,
        packet: u64,
        segment: &Segment<'a>,
    ) -> Result<(), AllocError> {
        let index = match self.known(segment) {
            Some(index) => index,
            None => self.begin(alloc, port, segment)?,
        };
        match self.all.get_mut(index) {
            Some(connection) => connection.put(packet, segment),
            None => Ok(()),
        }
    }
}

/// The connections of a capture.
#[derive(Drop)]
pub struct Gathered<'a> {
    /// Those of the server's port, which are lanes.
    pub lanes: Vec<Connection<'a>>,
    /// All others.
    pub others: Vec<Connection<'a>>,
    pub passed: PassedCounts,
}

/// The connections of packets. `port` is that of the NFS server.
pub fn gather<'a>(
    alloc: Global,
    packets: &[Packet<'a>],
    port: u16,
) -> Result<Gathered<'a>, AllocError> {
    let mut lanes = Connections::new(alloc);
    let mut others = Connections::new(alloc);
    let mut passed = PassedCounts::NONE;
    let mut time = 0;
    for index in 0..packets.len() {
        if packets[index].time.saturating_add(TOLERANCE) < time {
            passed.too_early = passed.too_early.saturating_add(1);
        }
        time = packets[index].time.max(time);
        let segment = match segment_of(&packets[index]) {
            Ok(segment) => segment,
            Err(reason) => {
                passed.add(reason);
                continue;
            }
        };
        if segment.payload.len() < segment.length {
            passed.cut_payloads = passed.cut_payloads.saturating_add(1);
        }
        if segment.source.port == port || segment.destination.port == port {
            lanes.put(alloc, port, index as u64, &segment)?;
        } else {
            others.put(alloc, port, index as u64, &segment)?;
        }
    }
    for connection in lanes.all.iter() {
        passed.add_connection(connection);
    }
    passed.other_servers = lanes.elsewhere;
    Ok(Gathered {
        lanes: lanes.all,
        others: others.all,
        passed,
    })
}
