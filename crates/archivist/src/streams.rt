// The two standard streams, to which bytes are written that need not be text.
use std::io;

#[derive(Clone, Copy)]
pub enum Stream {
    Output,
    Error,
}

pub fn write_all(rt: &HostRuntime, to: Stream, bytes: &[u8]) -> io::Result<()> {
    match to {
        Stream::Output => rt.stdout().write_all(bytes),
        Stream::Error => rt.stderr().write_all(bytes),
    }
}
