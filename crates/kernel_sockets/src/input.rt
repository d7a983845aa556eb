//! What comes on a connection.
use crate::connections::Connections;
use std::io;
use std::io::Read;
use std::net::TcpStream;

/// What comes on a connection, up to its end, or until no more connections are let in: a peer that never stops is not heard for ever.
#[derive(Drop)]
pub struct ConnectionInput<'a> {
    stream: &'a TcpStream,
    connections: &'a Connections,
}

impl<'a> ConnectionInput<'a> {
    /// The input of one of these connections.
    pub fn new(stream: &'a TcpStream, connections: &'a Connections) -> ConnectionInput<'a> {
        ConnectionInput {
            stream,
            connections,
        }
    }
}

impl Read for ConnectionInput<'_> {
    fn read(&mut self, buf: &mut [u8]) -> io::Result<usize> {
        if self.connections.is_closed() {
            return Ok(0);
        }
        let mut stream = self.stream;
        stream.read(buf)
    }
}
