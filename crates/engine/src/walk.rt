// The literal that a step enters, found by a walk over the clause words.
ghost use Rattle.std.proofs.Math.Option.{none, some};
ghost use Rattle.std.specs.Prelude.{◌≡◌, ◌<◌, length};
ghost use Rattle.std.proofs.Math.ListN.{get_elem?};
ghost use Rattle.table.specs.Body.{body_fault, starts};
ghost use Rattle.table.specs.File.{judge};
ghost use Rattle.table.specs.Readers.{BeginsAt};
ghost use Rattle.tableaux.specs.Leaves.{offsets_at};
ghost use Rattle.engine.specs.Checking.{Located};

use index::entries::Scan;
use words::fields;

// Where the clause of a number begins.
#[tactic(auto, using(crate::proofs::Checker::Walks::start_laws))]
fn start_of(body: &[u32], number: usize) -> usize
    requires { (body_fault 0 0 body.now ≡ none) × (number < length (starts 0 0 body.now)) }
    ensures { BeginsAt body.now number result }
{
    let mut at = 0;
    for _ in 0..number {
        at += fields::wide(fields::following(body[at])) + 1;
    }
    at
}

// How far the literal of a number stands behind its clause word.
#[tactic(auto, using(crate::proofs::Checker::Walks::number_laws))]
fn offset_of(file: &[u32], start: usize, literal: u32) -> u32
    requires { literal < length (offsets_at file.now start) }
    ensures { get_elem? (offsets_at file.now start) literal ≡ some result }
{
    let mut offset: u32 = 1;
    let mut left = literal;
    // No index that a range bounds: the literal is met before the clause ends.
    loop {
        let here = offset;
        let kind = fields::kind(file[start + fields::wide(here)]);
        offset += 1;
        if kind != 2 {
            continue;
        }
        if left == 0 {
            return here;
        }
        left -= 1;
    }
}

// The literal of a number in the clause of a number.
#[tactic(auto, using(crate::proofs::Checker::Walks::walk_laws))]
pub fn entry(file: &[u32], clause: u32, literal: u32) -> Option<Scan>
    requires { ((judge file.now).status ≡ 0) × (clause < 512) }
    ensures { Located file.now clause literal result }
{
    let end = file.len() - 4;
    if file[end + 1] <= clause {
        return None;
    }
    let start = start_of(&file[..end], fields::wide(clause));
    if fields::literals(file[start]) <= literal {
        return None;
    }
    let offset = offset_of(file, start, literal);
    let begin = start as u32;
    Some(Scan {
        at: begin + offset,
        clauses: clause + 1,
        start: begin,
        literals: literal,
    })
}
