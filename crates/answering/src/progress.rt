// Progress told on standard error. Where it can't be written, the asking goes on.
use std::str;
use text::{part, put};

pub(crate) fn tell(rt: &impl Eprint, watched: bool, bound: u32, tries: u32) {
    if !watched {
        return;
    }
    let mut own = [0u8; 128];
    let a = put::field(&mut own, 0, b"bound ", bound);
    let b = put::field(&mut own, a, b": none, tries so far ", tries);
    if let Ok(told) = str::from_utf8(part::front(&own, b)) {
        let _ = eprintln!(rt; "{told}");
    }
}
