// Where a literal stands in the body.
ghost use Rattle.std.specs.Prelude.{◌≡◌, ◌≤◌, ◌<◌};
ghost use Rattle.index.specs.Scanning.{begun, past_word, other_sign};

use words::fields;

// Where a scan of the body stands: the next word, the clauses begun before it, where the latest begins, and its literals before the next word.
#[derive(Clone, Copy)]
pub struct Scan {
    pub at: u32,
    pub clauses: u32,
    pub start: u32,
    pub literals: u32,
}

pub fn beginning() -> Scan
    ensures { result ≡ begun }
{
    Scan {
        at: 0,
        clauses: 0,
        start: 0,
        literals: 0,
    }
}

// The scan past one word.
#[tactic(auto, using(crate::proofs::Scans::past_laws))]
pub fn past(scan: Scan, word: u32) -> Scan
    requires { (scan.at < 4294967295) × (scan.clauses ≤ scan.at) × (scan.literals ≤ scan.at) }
    ensures { result ≡ past_word scan word }
{
    let at = scan.at;
    let kind = fields::kind(word);
    if kind == 3 {
        return Scan {
            at: at + 1,
            clauses: scan.clauses + 1,
            start: at,
            literals: 0,
        };
    }
    if kind == 2 {
        return Scan {
            at: at + 1,
            literals: scan.literals + 1,
            ..scan
        };
    }
    Scan { at: at + 1, ..scan }
}

// The literal word of the other sign.
#[tactic(auto, using(crate::proofs::Scans::flipped))]
pub fn other_sign(word: u32) -> u32
    ensures { result ≡ other_sign word }
{
    word ^ 0x8000
}
