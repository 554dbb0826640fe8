// What a line's call is lent: how long the buffers are, and with what they are filled before it; and the line that is written of it.
#![tactic(auto)]

ghost use Rattle.std.specs.Prelude.{◌≡◌, length, replicate};

use std::io;
use text::part;
use words::room;

// The most that a field of a row may be.
pub const ANY: u32 = 4294967295;

pub const FILE: u32 = 16100;

pub const OFFERED: u32 = 1024;

pub const PROOF: u32 = 300;

pub const LONG: u32 = 20000;

pub const NUMBERS: u32 = 600;

pub const RECORDS: u32 = 600;

pub const TEXT: u32 = 131072;

pub const ENTRIES: u32 = 16400;

// How long the buffers are. A line is read or written whole, and a row's values are at most eight.
pub const LINE_ROOM: usize = 450000;

pub const VALUE_ROOM: usize = 8;

pub const PROOF_ROOM: usize = 300;

pub const LONG_ROOM: usize = 20000;

pub const OFFERED_ROOM: usize = 1024;

pub const FILE_ROOM: usize = 16100;

pub const RECORD_ROOM: usize = 1800;

pub const ENTRY_ROOM: usize = 16400;

pub const TEXT_ROOM: usize = 131072;

// Their lengths in numbers: what a row may ask for fits, and three words are a record.
const _: () = prove!(LINE_ROOM == 450000 && VALUE_ROOM == 8);

const _: () = prove!(PROOF_ROOM == 300 && LONG_ROOM == 20000 && OFFERED_ROOM == 1024);

const _: () = prove!(
    FILE_ROOM == 16100 && RECORD_ROOM == 1800 && ENTRY_ROOM == 16400 && TEXT_ROOM == 131072
);

// Words as they are before a call.
pub fn words<const N: usize>() -> [u32; N]
    ensures value { result ≡ replicate N 0xA5A5A5A5 }
    ensures sized { N ≡ length result }
{
    room::filled(0xA5A5A5A5)
}

// Bytes as they are before a call.
pub fn bytes<const N: usize>() -> [u8; N]
    ensures value { result ≡ replicate N 0xA5 }
    ensures sized { N ≡ length result }
{
    room::filled(0xA5)
}

pub fn write_line(rt: &impl Print, out: &[u8], n: usize) -> io::Result<()> {
    rt.write_all(part::front(out, n))
}
