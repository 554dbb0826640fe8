// A text read byte by byte: whether it is permitted, and where it goes wrong.
ghost use Rattle.std.specs.Prelude.{◌≡◌, ◌<◌};
ghost use Rattle.clausetext.specs.Judging.{Room, owed_at, outside, on_ended, on_sign, moved, signed, on_role, on_lower, on_upper, on_kind, on_byte, step_of, settled, may_end, finished, judged};

use crate::kind;
use crate::kind::{Kind, Mark};

// What is wanted next. A bool tells that the disjunction stands in parentheses, a number in how many lists of arguments the place is.
#[derive(Clone, Copy)]
pub enum Want {
    // `cnf`, or the text's end
    Clause,
    // `(`, name, `,`, role and `,` in turn
    Opening,
    Name,
    AfterName,
    Role,
    AfterRole,
    Formula,
    Literal(bool),
    // an atom after `~`
    Atom(bool),
    // a list of arguments, or what comes after a whole term
    Symbol(usize, bool),
    // a term, in one list of arguments more than the number says
    Term(usize, bool),
    // what comes after a whole term or atom
    Ended(usize, bool),
    // `)` and `.` in turn
    Closing,
    Stop,
}

// Where a byte stands: between tokens, in a comment, in a name that may go on, in a word of which the bytes from a place of WORDS on are owed.
#[derive(Clone, Copy)]
pub enum Mode {
    Between,
    Comment,
    Word,
    Owed(usize),
}

#[derive(Clone, Copy)]
pub struct State {
    pub want: Want,
    pub mode: Mode,
    pub clauses: usize,
    pub questions: usize,
}

// The numbers of clauses and of questions in a permitted text.
#[derive(Clone, Copy)]
pub struct Counts {
    pub clauses: usize,
    pub questions: usize,
}

const WORDS: [u8; 40] = *b"cnf.axiom.hypothesis.negated_conjecture.";

// The byte owed at a place; `.` where a word is whole.
#[tactic(auto, using(crate::proofs::JudgeLaws::owed_within, crate::proofs::JudgeLaws::owed_past))]
fn owed(place: usize) -> u8
    ensures { result ≡ owed_at place }
{
    if place < WORDS.len() {
        WORDS[place]
    } else {
        b'.'
    }
}

fn closed(bracketed: bool) -> Want
    ensures { result ≡ outside bracketed }
{
    if bracketed { Want::Closing } else { Want::Stop }
}

// Where a sign leads after a whole term or atom.
#[tactic(auto, unfolding(crate::specs::Judging::on_ended, crate::specs::Judging::row))]
fn on_ended(depth: usize, bracketed: bool, mark: Mark) -> Option<Want>
    ensures { result ≡ on_ended depth bracketed mark }
{
    match mark {
        Mark::Close if depth == 0 => Some(closed(bracketed)),
        Mark::Close => Some(Want::Ended(depth - 1, bracketed)),
        Mark::Bar if depth == 0 => Some(Want::Literal(bracketed)),
        Mark::Comma if depth > 0 => Some(Want::Term(depth - 1, bracketed)),
        _ => None,
    }
}

// Where a sign between tokens leads.
#[tactic(auto, unfolding(crate::specs::Judging::on_sign, crate::specs::Judging::row))]
fn on_sign(want: Want, mark: Mark) -> Option<Want>
    ensures { result ≡ on_sign want mark }
{
    match (want, mark) {
        (Want::Opening, Mark::Open) => Some(Want::Name),
        (Want::AfterName, Mark::Comma) => Some(Want::Role),
        (Want::AfterRole, Mark::Comma) => Some(Want::Formula),
        (Want::Formula, Mark::Open) => Some(Want::Literal(true)),
        (Want::Formula, Mark::Tilde) => Some(Want::Atom(false)),
        (Want::Literal(bracketed), Mark::Tilde) => Some(Want::Atom(bracketed)),
        (Want::Symbol(depth, bracketed), Mark::Open) => Some(Want::Term(depth, bracketed)),
        (Want::Symbol(depth, bracketed), _) => on_ended(depth, bracketed, mark),
        (Want::Ended(depth, bracketed), _) => on_ended(depth, bracketed, mark),
        (Want::Closing, Mark::Close) => Some(Want::Stop),
        (Want::Stop, Mark::Dot) => Some(Want::Clause),
        _ => None,
    }
}

fn move_to(s: State, want: Want, mode: Mode) -> State
    ensures { Some result ≡ moved s want mode }
{
    State { want, mode, ..s }
}

// The first byte of a role.
#[tactic(auto, unfolding(crate::specs::Judging::on_role))]
fn on_role(s: State, c: u8) -> Option<State>
    requires { Room s }
    ensures { result ≡ on_role s c }
{
    let asked = c == b'n';
    let rest = match c {
        b'a' => 5,
        b'h' => 11,
        b'n' => 22,
        _ => return None,
    };
    Some(State {
        want: Want::AfterRole,
        mode: Mode::Owed(rest),
        clauses: s.clauses + 1,
        questions: s.questions + usize::from(asked),
    })
}

// A lower-case letter between tokens.
#[tactic(auto, unfolding(crate::specs::Judging::on_lower))]
fn on_lower(s: State, c: u8) -> Option<State>
    requires { Room s }
    ensures { result ≡ on_lower s s.want c }
{
    match s.want {
        Want::Clause if c == b'c' => Some(move_to(s, Want::Opening, Mode::Owed(1))),
        Want::Name => Some(move_to(s, Want::AfterName, Mode::Word)),
        Want::Role => on_role(s, c),
        Want::Formula => Some(move_to(s, Want::Symbol(0, false), Mode::Word)),
        Want::Literal(bracketed) | Want::Atom(bracketed) => {
            Some(move_to(s, Want::Symbol(0, bracketed), Mode::Word))
        }
        Want::Term(depth, bracketed) => {
            Some(move_to(s, Want::Symbol(depth + 1, bracketed), Mode::Word))
        }
        _ => None,
    }
}

// An upper-case letter between tokens.
#[tactic(auto, unfolding(crate::specs::Judging::on_upper))]
fn on_upper(s: State) -> Option<State>
    requires { Room s }
    ensures { result ≡ on_upper s s.want }
{
    let Want::Term(depth, bracketed) = s.want else {
        return None;
    };
    Some(move_to(s, Want::Ended(depth + 1, bracketed), Mode::Word))
}

// A sign between tokens.
#[tactic(auto, unfolding(crate::specs::Judging::signed))]
fn follow(s: State, mark: Mark) -> Option<State>
    ensures { result ≡ signed s (on_sign s.want mark) }
{
    let want = on_sign(s.want, mark)?;
    Some(move_to(s, want, Mode::Between))
}

// A byte between tokens.
#[tactic(auto, unfolding(crate::specs::Judging::on_kind))]
fn on_kind(s: State, c: u8, kind: Kind) -> Option<State>
    requires { Room s }
    ensures { result ≡ on_kind s c kind }
{
    match kind {
        Kind::Blank => Some(move_to(s, s.want, Mode::Between)),
        Kind::Percent => Some(move_to(s, s.want, Mode::Comment)),
        Kind::Lower => on_lower(s, c),
        Kind::Upper => on_upper(s),
        Kind::Sign(mark) => follow(s, mark),
        Kind::Further | Kind::Other => None,
    }
}

// A byte in a name that may go on.
#[tactic(auto, unfolding(crate::specs::Judging::on_byte))]
fn in_word(s: State, c: u8) -> Option<State>
    requires { Room s }
    ensures { result ≡ on_byte s c Mode.Word }
{
    let kind = kind::kind_of(c);
    if kind::goes_on(kind) {
        Some(move_to(s, s.want, Mode::Word))
    } else {
        on_kind(s, c, kind)
    }
}

// A byte in a word of which the bytes from a place on are owed.
#[tactic(auto, using(crate::proofs::JudgeLaws::owed_fits), unfolding(crate::specs::Judging::on_byte))]
fn in_owed(s: State, c: u8, place: usize) -> Option<State>
    requires { Room s }
    ensures { result ≡ on_byte s c (Mode.Owed place) }
{
    let kind = kind::kind_of(c);
    let byte = owed(place);
    if kind::goes_on(kind) {
        if c == byte {
            return Some(move_to(s, s.want, Mode::Owed(place + 1)));
        }
        return None;
    }
    if byte == b'.' {
        return on_kind(s, c, kind);
    }
    None
}

#[tactic(auto, unfolding(crate::specs::Judging::on_byte))]
fn in_comment(s: State, c: u8) -> State
    ensures { Some result ≡ on_byte s c Mode.Comment }
{
    let mode = if c == b'\n' {
        Mode::Between
    } else {
        Mode::Comment
    };
    move_to(s, s.want, mode)
}

#[tactic(auto, unfolding(crate::specs::Judging::step_of, crate::specs::Judging::on_byte))]
pub(crate) fn advance(s: State, c: u8) -> Option<State>
    requires { Room s }
    ensures { result ≡ step_of s c }
{
    match s.mode {
        Mode::Between => on_kind(s, c, kind::kind_of(c)),
        Mode::Comment => Some(in_comment(s, c)),
        Mode::Word => in_word(s, c),
        Mode::Owed(place) => in_owed(s, c, place),
    }
}

#[tactic(auto, unfolding(crate::specs::Judging::settled))]
fn whole(mode: Mode) -> bool
    ensures { result ≡ settled mode }
{
    match mode {
        Mode::Owed(place) => owed(place) == b'.',
        Mode::Between | Mode::Comment | Mode::Word => true,
    }
}

// The text may end.
#[tactic(auto, unfolding(crate::specs::Judging::may_end))]
fn may_end(s: State) -> bool
    ensures { result ≡ may_end s.want s.mode }
{
    matches!(s.want, Want::Clause) && whole(s.mode)
}

#[tactic(auto, unfolding(crate::specs::Judging::finished))]
fn finish(s: State, at: usize) -> Result<Counts, usize>
    ensures { result ≡ finished s at }
{
    if may_end(s) {
        return Ok(Counts {
            clauses: s.clauses,
            questions: s.questions,
        });
    }
    Err(at)
}

#[tactic(auto, using(crate::proofs::JudgeLoop::judge_laws))]
// The numbers of clauses and of questions in a permitted text, or the place where another is wrong.
pub fn judge_text(text: &[u8]) -> Result<Counts, usize>
    ensures { result ≡ judged text.now }
{
    if text.len() > 65536 {
        return Err(65536);
    }
    let mut s = State {
        want: Want::Clause,
        mode: Mode::Between,
        clauses: 0,
        questions: 0,
    };
    for (at, c) in text.iter().enumerate() {
        s = advance(s, *c).ok_or(at)?;
    }
    finish(s, text.len())
}
