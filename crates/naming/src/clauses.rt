// The names of the clauses of a text.
ghost use Rattle.std.specs.Prelude.{◌≡◌, ◌∷◌, [], ◌≤◌, length};
ghost use Rattle.clausetext.specs.Texts.{Permitted};
ghost use Rattle.names.specs.Noting.{name_at};
ghost use Rattle.naming.specs.Clauses.{next_stage, sign_stage, kept, is_question, Emitted, NamesPut};

use clausetext::kind::Mark;
use clausetext::token;
use clausetext::token::Lexeme;
use text::put;

// The tokens of a clause are counted up to its formula.
fn next_stage(stage: usize) -> usize
    ensures { result ≡ next_stage stage }
{
    if stage < 5 {
        return stage + 1;
    }
    5
}

// The clause's name is its third token.
fn kept_name(stage: usize, name: u32, start: u32) -> u32
    ensures { result ≡ kept stage name start }
{
    if stage == 2 {
        return start;
    }
    name
}

// A role begins with `n` where the clause is a question.
#[tactic(auto, using(crate::proofs::ClauseNames::role_none, crate::proofs::ClauseNames::role_byte))]
fn asks(text: &[u8], start: usize) -> bool
    ensures { result ≡ is_question (name_at text.now start) }
{
    start < text.len() && text[start] == b'n'
}

// At the role of a clause of the wanted sort, its name is put down.
fn put_name(
    text: &[u8],
    asked: bool,
    stage: usize,
    name: u32,
    start: usize,
    out: &mut [u32],
    at: usize,
) -> usize
    ensures { Emitted text.now asked stage name start out.old at out.new result }
{
    if stage != 4 {
        return at;
    }
    if asks(text, start) {
        if asked {
            return put::word(out, at, name);
        }
        return at;
    }
    if asked {
        return at;
    }
    put::word(out, at, name)
}

// After a sign: the next clause after `.`, else the next token.
#[tactic(auto, unfolding(crate::specs::Clauses::sign_stage))]
fn sign_stage(stage: usize, mark: Mark) -> usize
    ensures { result ≡ sign_stage stage mark }
{
    match mark {
        Mark::Dot => 0,
        _ => next_stage(stage),
    }
}

// Puts down where the names of the clauses stand that are questions, or of those that are not, in the order of the text.
#[tactic(auto, using(crate::proofs::ClauseNames::names_laws))]
pub fn put_names(text: &[u8], asked: bool, out: &mut [u32], from: usize) -> usize
    requires { (length text.now ≤ 65536) × Permitted text.now }
    ensures { NamesPut text.now asked out.old from out.new result }
{
    let mut stage = 0;
    let mut name = 0;
    let mut end = from;
    let mut at = 0;
    while let Some(lexeme) = token::next(text, at) {
        match lexeme {
            Lexeme::Word { start, stop } => {
                end = put_name(text, asked, stage, name, start, out, end);
                name = kept_name(stage, name, start as u32);
                stage = next_stage(stage);
                at = stop;
            }
            Lexeme::Capital { stop, .. } => {
                stage = next_stage(stage);
                at = stop;
            }
            Lexeme::Sign { mark, stop } => {
                stage = sign_stage(stage, mark);
                at = stop;
            }
        }
    }
    end
}
