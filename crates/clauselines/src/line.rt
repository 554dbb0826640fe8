// A clause's line, from the clause's words. What has no room in the buffer is counted: each function answers the place after its text.
ghost use Rattle.std.specs.Prelude.{◌≡◌, ◌++◌, drop};
ghost use Rattle.table.specs.Decode.{literals_from, clause_of};
ghost use Rattle.text.specs.Put.{Put};
ghost use Rattle.text.specs.Quoted.{bytes};
ghost use Rattle.clauselines.specs.Lines.{arguments_text, further_text, sign_text, alternatives_text, literals_text, role_text, clause_text};
ghost use Rattle.clauselines.specs.Writers.{TermHere, TermWritten, TermsHere, TermsWritten, LiteralHere, LiteralWritten, LiteralsHere, IsClause};

use text::put;
use words::fields;

// How far the words have been read, and how far the text goes.
#[derive(Drop)]
struct Reached {
    word: usize,
    byte: usize,
}

// A term is its word and then its arguments, each of them a term.
#[tactic(auto, using(crate::proofs::Terms::term_laws))]
#[cycle(arguments_further_term)]
fn term(own: &[u32], at: usize, out: &mut [u8], from: usize) -> Reached
    requires { TermHere own.now at }
    ensures { TermWritten own.now at out.old from out.new result }
{
    let w = own[at];
    if fields::kind(w) == 0 {
        let end = put::field(out, from, b"X", fields::number(w));
        return Reached {
            word: at + 1,
            byte: end,
        };
    }
    let end = put::field(out, from, b"f", fields::symbol(w));
    arguments(own, at + 1, fields::arity(w), out, end)
}

// So many arguments, in parentheses; where there are none, there are no parentheses.
#[tactic(auto, using(crate::proofs::Terms::term_laws))]
#[cycle(arguments_further_term)]
fn arguments(own: &[u32], at: usize, many: u32, out: &mut [u8], from: usize) -> Reached
    requires { TermsHere own.now at many }
    ensures { TermsWritten arguments_text own.now at many out.old from out.new result }
{
    if many == 0 {
        return Reached {
            word: at,
            byte: from,
        };
    }
    let opened = put::byte(out, from, b'(');
    let first = term(own, at, out, opened);
    further(own, first.word, many - 1, out, first.byte)
}

// So many further arguments, each after a comma, and the parenthesis after the last.
#[cycle(arguments_further_term)]
fn further(own: &[u32], at: usize, many: u32, out: &mut [u8], from: usize) -> Reached
    requires { TermsHere own.now at many }
    ensures { TermsWritten further_text own.now at many out.old from out.new result }
{
    let mut reached = Reached {
        word: at,
        byte: from,
    };
    for _ in 0..many {
        let comma = put::byte(out, reached.byte, b',');
        reached = term(own, reached.word, out, comma);
    }
    let closed = put::byte(out, reached.byte, b')');
    Reached {
        word: reached.word,
        byte: closed,
    }
}

fn sign(out: &mut [u8], from: usize, negative: bool) -> usize
    ensures { Put out.old from (sign_text negative) out.new result }
{
    if negative {
        return put::bytes(out, from, b"~ ");
    }
    from
}

// A literal is its sign, its predicate and then its arguments.
#[tactic(auto, using(crate::proofs::Clauses::clause_laws))]
fn literal(own: &[u32], at: usize, out: &mut [u8], from: usize) -> Reached
    requires { LiteralHere own.now at }
    ensures { LiteralWritten own.now at out.old from out.new result }
{
    let w = own[at];
    let signed = sign(out, from, fields::negative(w));
    let end = put::field(out, signed, b"p", fields::symbol(w));
    arguments(own, at + 1, fields::arity(w), out, end)
}

// So many further literals, up to the clause's last, each after a bar.
fn alternatives(own: &[u32], at: usize, many: u32, out: &mut [u8], from: usize) -> usize
    requires { LiteralsHere own.now at many }
    ensures { Put out.old from (alternatives_text (literals_from (drop at own.now))) out.new result }
{
    let mut reached = Reached {
        word: at,
        byte: from,
    };
    for _ in 0..many {
        let bar = put::bytes(out, reached.byte, b" | ");
        reached = literal(own, reached.word, out, bar);
    }
    reached.byte
}

// The literals of a clause, with bars between them.
#[tactic(auto, using(crate::proofs::Clauses::clause_laws))]
fn literals(own: &[u32], out: &mut [u8], from: usize) -> usize
    requires { IsClause own.now }
    ensures { Put out.old from (literals_text (clause_of own.now).literals) out.new result }
{
    let count = fields::literals(own[0]);
    let first = literal(own, 1, out, from);
    alternatives(own, first.word, count - 1, out, first.byte)
}

fn role(out: &mut [u8], from: usize, asked: bool) -> usize
    ensures { Put out.old from (bytes "," ++ role_text asked ++ bytes ",(") out.new result }
{
    if asked {
        return put::bytes(out, from, b",negated_conjecture,(");
    }
    put::bytes(out, from, b",axiom,(")
}

// The line of a clause, given its words, its number, and whether it is the question.
pub fn clause(own: &[u32], number: u32, asked: bool, out: &mut [u8], from: usize) -> usize
    requires { IsClause own.now }
    ensures { Put out.old from (clause_text number asked (clause_of own.now)) out.new result }
{
    let name = put::field(out, from, b"cnf(c", number);
    let opened = role(out, name, asked);
    let closed = literals(own, out, opened);
    put::bytes(out, closed, b")).\n")
}
