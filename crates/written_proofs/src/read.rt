// A proof read from text.
ghost use Rattle.std.specs.Prelude.{◌≡◌, List, ◌+◌, ◌≤◌, ◌<◌, length, take, drop, position};
ghost use Rattle.text.specs.Put.{Put};
ghost use Rattle.written_proofs.specs.Steps.{names_of};
ghost use Rattle.written_proofs.specs.Reading.{blank, piece, number_said, clause_said, step_made, height_made, clause_made, literal_made, verb_turn, turn, complete, read_proof, Told};

use crate::clause;
use requests::piece::{decimal, same, word};
use text::{part, put};
use words::Step;
use words::steps::encode;

// What a piece of the text is to be.
#[derive(Clone, Copy)]
pub enum Awaited {
    Step,
    Height,
    Clause,
    Literal(u32),
}

// What a piece of the text does.
#[derive(Drop)]
pub enum Turn {
    Awaits(Awaited),
    Makes(u32),
    Wrong,
}

// Whether all was read; else the place where it goes wrong. What was awaited there, and how many steps were read.
#[derive(Drop)]
pub struct Reading {
    pub whole: bool,
    pub place: usize,
    pub awaited: Awaited,
    pub steps: usize,
}

fn first_blank(bytes: &[u8]) -> Option<usize>
    ensures { result ≡ position blank bytes.now }
{
    bytes.iter().position(|c| *c <= b' ')
}

// Where a piece ends.
fn piece_end(said: &[u8], from: usize) -> usize
    ensures { result ≡ from + length (piece (drop from said.now)) }
{
    let rest = part::rest(said, from);
    from + first_blank(rest).unwrap_or(rest.len())
}

// The number that a piece says.
fn number(own: &[u8]) -> Option<u32>
    ensures { result ≡ number_said own.now }
{
    Some(decimal(own, 0, b' ')?.value)
}

// The clause that a piece tells.
fn told(text: &[u8], places: &[u32], own: &[u8]) -> Option<u32>
    requires { length places.now ≤ 512 }
    ensures { result ≡ clause_said (names_of text.now places.now) own.now }
{
    if clause::begins(own) {
        return clause::only(text, places, own);
    }
    number(own)
}

// A step that no word holds is wrong.
fn made(step: Step) -> Turn
    ensures { result ≡ step_made step }
{
    let w = encode(step);
    if w == 0xC000_0000 {
        return Turn::Wrong;
    }
    Turn::Makes(w)
}

fn verb(own: &[u8]) -> Turn
    ensures { result ≡ verb_turn own.now }
{
    if same(own, b"reduce") {
        return Turn::Awaits(Awaited::Height);
    }
    if same(own, b"extend") {
        return Turn::Awaits(Awaited::Clause);
    }
    let Some(read) = word(own, 0) else {
        return Turn::Wrong;
    };
    Turn::Makes(read.value)
}

fn reduction(height: Option<u32>) -> Turn
    ensures { result ≡ height_made height }
{
    let Some(height) = height else {
        return Turn::Wrong;
    };
    made(Step::Reduction(height))
}

fn named(clause: Option<u32>) -> Turn
    ensures { result ≡ clause_made clause }
{
    match clause {
        Some(clause) if clause < 512 => Turn::Awaits(Awaited::Literal(clause)),
        _ => Turn::Wrong,
    }
}

fn extension(clause: u32, literal: Option<u32>) -> Turn
    ensures { result ≡ literal_made clause literal }
{
    let Some(literal) = literal else {
        return Turn::Wrong;
    };
    made(Step::Extension(clause, literal))
}

fn weigh(text: &[u8], places: &[u32], awaited: Awaited, own: &[u8]) -> Turn
    requires { length places.now ≤ 512 }
    ensures { result ≡ turn (names_of text.now places.now) awaited own.now }
{
    match awaited {
        Awaited::Step => verb(own),
        Awaited::Height => reduction(number(own)),
        Awaited::Clause => named(told(text, places, own)),
        Awaited::Literal(clause) => extension(clause, number(own)),
    }
}

fn complete(awaited: Awaited) -> bool
    ensures { result ≡ complete awaited }
{
    matches!(awaited, Awaited::Step)
}

fn pieces(text: &[u8], places: &[u32], said: &[u8], steps: &mut [u32]) -> Reading
    requires { length places.now ≤ 512 }
    ensures { Told (read_proof (names_of text.now places.now) said.now) steps.old steps.new result }
{
    let mut awaited = Awaited::Step;
    let mut used = 0;
    let mut at = 0;
    while at < said.len() {
        if said[at] <= 32 {
            at += 1;
            continue;
        }
        let end = piece_end(said, at);
        match weigh(text, places, awaited, &said[at..end]) {
            Turn::Awaits(next) => {
                awaited = next;
                at = end;
                continue;
            }
            Turn::Makes(w) => {
                used = put::word(steps, used, w);
                awaited = Awaited::Step;
                at = end;
                continue;
            }
            Turn::Wrong => {
                return Reading {
                    whole: false,
                    place: at,
                    awaited,
                    steps: used,
                };
            }
        }
    }
    Reading {
        whole: complete(awaited),
        place: at,
        awaited,
        steps: used,
    }
}

pub fn proof(text: &[u8], places: &[u32], said: &[u8], steps: &mut [u32]) -> Reading
    ensures { Told (read_proof (names_of text.now (take 512 places.now)) said.now) steps.old steps.new result }
{
    pieces(text, part::front(places, 512), said, steps)
}
