// The result line of a search or a check.
use hukolearu::Outcome;
use results::outcome;
use std::io;
use words::room;

pub fn report(
    rt: &impl Print,
    o: Outcome,
    steps: usize,
    proof: &[u32],
    answer: &[u32],
    work: &[u32],
) -> io::Result<()> {
    let mut out: [u8; lent::LINE_ROOM] = room::filled(0);
    let n = outcome::outcome(&mut out, 0, o, steps, proof, answer, work);
    lent::write_line(rt, &out, n)
}
