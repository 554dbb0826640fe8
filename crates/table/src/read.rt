// Reading a clause: terms, literals, the clause. A place is counted from the clause's own word.
// The fingerprint is taken on the way: its products wait for one another, and the words are read meanwhile.
ghost use Rattle.std.specs.Prelude.{true, ◌≡◌, ◌+◌, ◌-◌, ◌^◌, ◌≤◌, ◌<◌, length, drop, get_or};
ghost use Rattle.table.specs.Reading.{variable_fits, clause_fits};
ghost use Rattle.table.specs.Readers.{TermRead, TermsRead, LiteralRead, LiteralsRead, WordsJudged, Judged, place_of};
ghost use Rattle.words.specs.Fingerprint.{mixed, word_bytes};

use words::{fields, fingerprint};

// How far the reading has come: the place of the next word, and the fingerprint of the words before it.
#[derive(Clone, Copy)]
pub(crate) struct Reached {
    pub at: usize,
    pub hash: u32,
}

impl Reached {
    // The same with a further word read.
    fn past(self, w: u32) -> Reached
        requires { self.at + 1 < 2 ^ 64 }
        ensures { result ≡ record { at = self.at + 1; hash = mixed self.hash (word_bytes w) } }
    {
        Reached {
            at: self.at + 1,
            hash: fingerprint::mix_word(self.hash, w),
        }
    }
}

fn variable_fits(count: u32, w: u32) -> bool
    ensures { result ≡ variable_fits count w }
{
    fields::variable_shaped(w) && fields::number(w) < count
}

// A term is its word and then its arguments, each of them a term. Of a reading that goes wrong, the place of the first wrong word.
#[cycle(arguments_term)]
#[tactic(auto, using(crate::proofs::Terms::terms_laws))]
pub(crate) fn term(own: &[u32], count: u32, from: Reached) -> Result<Reached, usize>
    requires { from.at ≤ length own.now }
    ensures { TermRead count own.now from.at from.hash result }
{
    if own.len() <= from.at {
        return Err(from.at);
    }
    let w = own[from.at];
    if variable_fits(count, w) {
        return Ok(from.past(w));
    }
    if fields::function_shaped(w) {
        return arguments(own, count, fields::arity(w), from.past(w));
    }
    Err(from.at)
}

// Whether a term with so many arguments is passed where it stands: the arguments join the terms left. Every other term is read by a call.
fn in_place(left: u32, more: u32) -> bool
    ensures { result ≡ true → left - 1 + more < 2 ^ 32 }
{
    more < 2 || left == 1
}

// So many terms, one after the other.
#[cycle(arguments_term)]
#[tactic(auto, using(crate::proofs::Terms::terms_laws))]
pub(crate) fn arguments(own: &[u32], count: u32, many: u32, from: Reached) -> Result<Reached, usize>
    requires { from.at ≤ length own.now }
    ensures { TermsRead count own.now from.at many from.hash result }
{
    let mut reached = from;
    let mut left = many;
    while left > 0 {
        if own.len() <= reached.at {
            return Err(reached.at);
        }
        let w = own[reached.at];
        if variable_fits(count, w) {
            reached = reached.past(w);
            left -= 1;
            continue;
        }
        if !fields::function_shaped(w) {
            return Err(reached.at);
        }
        let more = fields::arity(w);
        if in_place(left, more) {
            reached = reached.past(w);
            left = left - 1 + more;
            continue;
        }
        reached = term(own, count, reached)?;
        left -= 1;
    }
    Ok(reached)
}

// A literal is its word and then its arguments.
#[tactic(auto, using(crate::proofs::Clauses::literals_laws))]
fn literal(own: &[u32], count: u32, from: Reached) -> Result<Reached, usize>
    requires { from.at ≤ length own.now }
    ensures { LiteralRead count own.now from.at from.hash result }
{
    if own.len() <= from.at {
        return Err(from.at);
    }
    let w = own[from.at];
    if fields::literal_shaped(w) {
        return arguments(own, count, fields::arity(w), from.past(w));
    }
    Err(from.at)
}

// So many literals, from the word after the clause's own.
#[tactic(auto, using(crate::proofs::Clauses::literals_laws))]
fn literals(own: &[u32], count: u32, many: u32, hash: u32) -> Result<Reached, usize>
    requires { 1 ≤ length own.now }
    ensures { LiteralsRead count own.now many hash result }
{
    let mut reached = Reached { at: 1, hash };
    for _ in 0..many {
        reached = literal(own, count, reached)?;
    }
    Ok(reached)
}

// The place of a malformed clause's fault; of a whole clause, the place just after it.
pub(crate) fn place_of(read: Result<Reached, usize>) -> usize
    ensures { result ≡ place_of read }
{
    match read {
        Ok(reached) => reached.at,
        Err(place) => place,
    }
}

// The words of a clause, all of them: its literals take them up to the last.
#[tactic(auto, using(crate::proofs::Clauses::words_laws))]
fn clause_words(own: &[u32], hash: u32) -> Result<Reached, usize>
    requires { 1 ≤ length own.now }
    ensures { WordsJudged own.now hash result }
{
    let w = own[0];
    let h = fingerprint::mix_word(hash, w);
    let reached = literals(own, fields::variables(w), fields::literals(w), h)?;
    if reached.at < own.len() {
        return Err(reached.at);
    }
    Ok(reached)
}

// The clause's own word: its kind, fields and length.
fn clause_fits(part: &[u32]) -> bool
    requires { 1 ≤ length part.now }
    ensures { result ≡ clause_fits (get_or part.now 0 0) (drop 1 part.now) }
{
    let w = part[0];
    fields::clause_shaped(w) && fields::wide(fields::following(w)) <= part.len() - 1
}

// A clause is judged from the part of the body that starts at its own word: how far it reaches, or the place of its first fault.
#[tactic(auto, using(crate::proofs::Clauses::clause_laws))]
pub(crate) fn clause(part: &[u32], hash: u32) -> Result<Reached, usize>
    requires { 1 ≤ length part.now }
    ensures { Judged part.now hash result }
{
    if clause_fits(part) {
        let end = fields::wide(fields::following(part[0])) + 1;
        return clause_words(&part[..end], hash);
    }
    Err(0)
}
