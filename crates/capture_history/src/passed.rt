//! How many packets were passed over, and what of connections wasn't captured.

use crate::connection::Connection;
use packet_layers::PassedOver;

/// How many packets were passed over, for each reason, and how many lack bytes.
#[derive(Clone, Copy)]
pub struct PassedCounts {
    pub not_ip: u64,
    pub fragments: u64,
    pub not_tcp: u64,
    pub malformed: u64,
    pub cut_headers: u64,
    /// These weren't passed over: the snap length cut bytes of their segments.
    pub cut_payloads: u64,
    /// These weren't either: they are over a millisecond earlier than a packet ahead of them.
    pub too_early: u64,
    /// So many connections to the server were captured one way alone.
    pub one_way: u64,
    /// So many began ahead of the capture.
    pub without_beginning: u64,
    /// So many go to another server than the first of them.
    pub other_servers: u64,
}

impl PassedCounts {
    /// Nothing was passed over.
    pub const NONE: PassedCounts = PassedCounts {
        not_ip: 0,
        fragments: 0,
        not_tcp: 0,
        malformed: 0,
        cut_headers: 0,
        cut_payloads: 0,
        too_early: 0,
        one_way: 0,
        without_beginning: 0,
        other_servers: 0,
    };

    /// Counts a connection to the server.
    pub fn add_connection(&mut self, connection: &Connection<'_>) {
        if connection.is_one_way() {
            self.one_way = self.one_way.saturating_add(1);
        }
        if connection.has_no_beginning() {
            self.without_beginning = self.without_beginning.saturating_add(1);
        }
    }

    /// Counts a packet more.
    pub fn add(&mut self, reason: PassedOver) {
        let count = match reason {
            PassedOver::NotIp => &mut self.not_ip,
            PassedOver::Fragment => &mut self.fragments,
            PassedOver::NotTcp => &mut self.not_tcp,
            PassedOver::Malformed => &mut self.malformed,
            PassedOver::CutHeader => &mut self.cut_headers,
        };
        *count = count.saturating_add(1);
    }
}
