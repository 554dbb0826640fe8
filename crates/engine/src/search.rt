// Depth-first search in the stated order.
ghost use Rattle.std.specs.Prelude.{true, false, List, ◌≡◌, ℕ, ◌≤◌, ◌<◌, ◌-◌, length, take};
ghost use Rattle.words.specs.Fields.{kind_of};
ghost use Rattle.unification.specs.Places.{work_words};
ghost use Rattle.index.specs.Scanning.{Standing, IsNext};
ghost use Rattle.index.specs.Places.{most_noted};
ghost use Rattle.index.specs.Noting.{count_at};
ghost use Rattle.table.specs.File.{judge};
ghost use Rattle.unification.specs.State.{copies_of, count_of};
ghost use Rattle.unification.specs.Good.{word_at, Good};
ghost use Rattle.tableaux.specs.Ready.{leaf_of};
ghost use Rattle.engine.specs.Searching.{without, Treats, Wanted, extends_at, Allows, Takes, Restored, Treated, Attempted, Rowed, reductions_at, extensions_at, extensions_from, further_at, reached_by, costing, gives_up, LinkedFor, Ran, early_tries, settled_by, Ends};
ghost use Rattle.engine.specs.Nowhere.{Opening, Vain};

use crate::{Conditions, profile, vain};
use index::entries::Scan;
use index::{entries, links, notes, places, scanning};
use tableaux::tableau;
use tableaux::tableau::Place;
use unification::unify::Unmet;
use unification::{memory, unify};
use words::{Step, fields, steps};

// A body of fewer words is noted before the search begins.
const SHORT: u32 = 512;

// No more literals than this are ever noted; a larger count says that none are, and the search goes by scans.
const MOST: u32 = 3584;

const NOTHING: u32 = 4096;

// What a search goes by: how many words of the file are the body, where the question begins, the bound, and whether positive leaves are restarted.
#[derive(Clone, Copy)]
pub struct Task {
    pub body: u32,
    pub question: u32,
    pub bound: u32,
    pub restarts: bool,
}

// A candidate of a leaf: the reference of an ancestor's literal, and its height; where a literal is entered; or the restart.
#[derive(Clone, Copy)]
pub enum Move {
    Reduce(u32, u32),
    Enter(Scan),
    Renew,
}

// Three cases: two ways to find nothing are told apart, and neither is an error, so that no Option or Result says it.
#[derive(Clone, Copy, Debug, PartialEq, Eq)]
pub enum Ending {
    Found,
    Nothing,
    Out,
}

// How a search ended, the tries left of its budget, and the steps of what it found.
#[derive(Clone, Copy)]
pub struct Searched {
    pub ending: Ending,
    pub left: u32,
    pub steps: u32,
}

// No proof was found, or the budget ended.
fn without(ending: Ending, left: u32) -> Searched
    ensures { result ≡ without ending left }
{
    Searched {
        ending,
        left,
        steps: 0,
    }
}

// The candidate is tried.
fn take(
    file: &[u32],
    work: &mut [u32],
    task: Task,
    place: Place,
    candidate: Move,
) -> Result<Place, Unmet>
    requires { Treats file.now work.old task place × (0 < place.head) × Allows file.now work.old task place candidate }
    ensures { Takes file.now work.old work.new task place candidate result }
{
    match candidate {
        Move::Reduce(ancestor, height) => tableau::reduce(file, work, place, ancestor, height),
        Move::Enter(scan) => {
            let start = scan.start;
            let offset = scan.at - start;
            let step = steps::encode(Step::Extension(scan.clauses - 1, scan.literals));
            tableau::extend(file, work, place, start, offset, step)
        }
        Move::Renew => {
            let step = steps::encode(Step::Restart);
            Ok(tableau::restart(file, work, place, task.question, step))
        }
    }
}

// So many bindings and copies are left.
fn restore(work: &mut [u32], count: u32, copies: u32)
    requires { ((f : List ℕ) × Good f work.old) × (count ≤ count_of work.old) }
    ensures { (f : List ℕ) → Good f work.old → Restored f work.old work.new count copies }
{
    unify::undo(work, count);
    work[memory::COPIES] = copies;
}

// One candidate, its try already paid. Where it fails, or all below it, it is taken back.
#[cycle(attempt_extensions_extensions_by_scan_further_reductions_treat)]
fn attempt(
    file: &[u32],
    work: &mut [u32],
    task: Task,
    place: Place,
    candidate: Move,
    left: u32,
) -> Searched
    requires { Treats file.now work.old task place × (0 < place.head) × Allows file.now work.old task place candidate }
    ensures { Attempted file.now work.old work.new task place candidate left result }
{
    let count = work[memory::COUNT];
    let copies = work[memory::COPIES];
    let taken = take(file, work, task, place, candidate);
    let Ok(next) = taken else {
        restore(work, count, copies);
        return without(Ending::Nothing, left);
    };
    let tried = treat(file, work, task, next, left);
    if tried.ending != Ending::Nothing {
        return tried;
    }
    restore(work, count, copies);
    tried
}

// The reductions of the leftmost leaf, nearest ancestor first.
#[cycle(attempt_extensions_extensions_by_scan_further_reductions_treat)]
fn reductions(
    file: &[u32],
    work: &mut [u32],
    task: Task,
    place: Place,
    wanted: u32,
    tries: u32,
) -> Searched
    requires { Treats file.now work.old task place × (0 < place.head) × Wanted file.now work.old place wanted }
    ensures { Rowed file.now work.old work.new task place tries result (reductions_at file.now work.old place) }
{
    let mut ancestor = tableau::parent_of(work, place.head);
    let mut height: u32 = 0;
    let mut left = tries;
    while ancestor != 0 {
        let literal = tableau::literal_of(work, ancestor);
        ancestor = tableau::parent_of(work, ancestor);
        height += 1;
        if memory::word_at(file, work, literal) != wanted {
            continue;
        }
        if left == 0 {
            return without(Ending::Out, left);
        }
        let leaf = tableau::literal_of(work, place.head);
        if vain::heads_differ(file, work, leaf, literal) {
            left -= 1;
            continue;
        }
        let candidate = Move::Reduce(literal, height);
        let tried = attempt(file, work, task, place, candidate, left - 1);
        if tried.ending != Ending::Nothing {
            return tried;
        }
        left = tried.left;
    }
    without(Ending::Nothing, left)
}

// Whether nothing can come of an extension: first arguments clash, or it is the last that the bound allows and leads to a leaf that no reduction closes.
#[tactic(auto, using(crate::proofs::Nowhere::Seen::seen_laws, crate::proofs::Searching::Takes::enter_later, crate::proofs::Searching::Takes::extends))]
fn in_vain(file: &[u32], work: &[u32], task: Task, place: Place, symbol: u32, scan: Scan) -> bool
    requires { Treats file.now work.now task place × (0 < place.head) × Allows file.now work.now task place (Move.Enter scan) × Opening file.now work.now (leaf_of work.now place) symbol }
    ensures { result ≡ true → Vain file.now work.now task place (Move.Enter scan) }
{
    if vain::clashes(file, scan.at, symbol) {
        return true;
    }
    if work[memory::COPIES] != task.bound {
        return false;
    }
    let start = scan.start;
    vain::dead_end(file, work, place, start, scan.at - start)
}

// Where a scan has come to: a literal, or the end of the body.
fn reached(found: Option<Scan>, body: u32) -> u32
    ensures { result ≡ reached_by found body }
{
    match found {
        Some(scan) => scan.at,
        None => body,
    }
}

// The next literal with a word, by a scan. What the scans of a search cost is counted, until it is as much as passing the body's words.
#[tactic(auto, using(crate::proofs::Searching::Scanned::reach_least, crate::proofs::Searching::Scanned::reach_most, crate::proofs::Searching::Scanned::costs_more, crate::proofs::Searching::Scanned::costs_same))]
fn sought(file: &[u32], work: &mut [u32], body: u32, wanted: u32, from: Scan) -> Option<Scan>
    requires { (length work.old ≡ work_words) × (body ≤ length file.now) × (body ≤ 16000) × (kind_of wanted ≡ 2) × Standing (take body file.now) from }
    ensures { IsNext (take body file.now) wanted from result × (work.new ≡ costing work.old body (reached_by result body - from.at)) }
{
    let found = scanning::next(file, body, wanted, from);
    let passed = reached(found, body) - from.at;
    let scanned = work[places::SCANNED];
    if scanned < body {
        work[places::SCANNED] = scanned + passed + 16;
        return found;
    }
    found
}

// Whether a search by scans is given up: it has tries left, and its scans have cost as much as passing the body's words.
#[tactic(auto, using(crate::proofs::Searching::Scanned::gives_up_out, crate::proofs::Searching::Scanned::gives_up_lem))]
fn given_up(work: &[u32], body: u32, left: u32) -> bool
    requires { length work.now ≡ work_words }
    ensures { result ≡ gives_up work.now body left }
{
    left != 0 && body <= work[places::SCANNED]
}

// The extensions of the leftmost leaf from where a scan of the body stands, unless the search is given up. It calls itself for the next, so that the compiler keeps it out of the loops of a longer search.
#[cycle(attempt_extensions_extensions_by_scan_further_reductions_treat)]
fn extensions_by_scan(
    file: &[u32],
    work: &mut [u32],
    task: Task,
    place: Place,
    wanted: u32,
    from: Scan,
    tries: u32,
) -> Searched
    requires { Treats file.now work.old task place × (0 < place.head) × Wanted file.now work.old place wanted × (copies_of work.old ≤ task.bound) × (extends_at file.now work.old task place ≡ true) × (most_noted < count_at work.old) × Standing (take task.body file.now) from }
    ensures { Rowed file.now work.old work.new task place tries result (extensions_from file.now task wanted from) }
{
    if given_up(work, task.body, tries) {
        return without(Ending::Out, tries);
    }
    let candidate = sought(file, work, task.body, wanted, from);
    let Some(entry) = candidate else {
        return without(Ending::Nothing, tries);
    };
    if tries == 0 {
        return without(Ending::Out, tries);
    }
    let tried = attempt(file, work, task, place, Move::Enter(entry), tries - 1);
    if tried.ending != Ending::Nothing {
        return tried;
    }
    let next = entries::past(entry, wanted);
    extensions_by_scan(file, work, task, place, wanted, next, tried.left)
}

// The extensions of the leftmost leaf by the notes of the body's literals: by clause, then literal.
#[cycle(attempt_extensions_extensions_by_scan_further_reductions_treat)]
fn extensions(
    file: &[u32],
    work: &mut [u32],
    task: Task,
    place: Place,
    wanted: u32,
    tries: u32,
) -> Searched
    requires { Treats file.now work.old task place × (0 < place.head) × Wanted file.now work.old place wanted × (copies_of work.old ≤ task.bound) × (extends_at file.now work.old task place ≡ true) × (count_at work.old ≤ most_noted) }
    ensures { Rowed file.now work.old work.new task place tries result (extensions_at file.now work.old task place) }
{
    let symbol = vain::first_symbol(file, work, tableau::literal_of(work, place.head));
    let mut link = links::first(file, work, wanted);
    let mut left = tries;
    while link != 0 {
        let literal = link - 1;
        if left == 0 {
            return without(Ending::Out, left);
        }
        let entry = notes::unpacked(work, literal);
        link = links::next(work, literal);
        if in_vain(file, work, task, place, symbol, entry) {
            left -= 1;
            continue;
        }
        let tried = attempt(file, work, task, place, Move::Enter(entry), left - 1);
        if tried.ending != Ending::Nothing {
            return tried;
        }
        left = tried.left;
    }
    without(Ending::Nothing, left)
}

// After the reductions of the leftmost leaf: its restart or its extensions, unless the bound's are used.
#[cycle(attempt_extensions_extensions_by_scan_further_reductions_treat)]
fn further(
    file: &[u32],
    work: &mut [u32],
    task: Task,
    place: Place,
    word: u32,
    tries: u32,
) -> Searched
    requires { Treats file.now work.old task place × (0 < place.head) × (word ≡ word_at file.now work.old (leaf_of work.old place)) }
    ensures { Rowed file.now work.old work.new task place tries result (further_at file.now work.old task place) }
{
    if task.bound < work[memory::COPIES] {
        return without(Ending::Nothing, tries);
    }
    if !profile::restarts(task.restarts, word) {
        let wanted = entries::other_sign(word);
        if work[places::NOTED] <= MOST {
            return extensions(file, work, task, place, wanted, tries);
        }
        let from = entries::beginning();
        return extensions_by_scan(file, work, task, place, wanted, from, tries);
    }
    if tries == 0 {
        return without(Ending::Out, tries);
    }
    attempt(file, work, task, place, Move::Renew, tries - 1)
}

// The leftmost leaf is treated: its reductions first.
#[cycle(attempt_extensions_extensions_by_scan_further_reductions_treat)]
fn treat(file: &[u32], work: &mut [u32], task: Task, place: Place, left: u32) -> Searched
    requires { Treats file.now work.old task place }
    ensures { Treated file.now work.old work.new task place left result }
{
    let head = place.head;
    if head == 0 {
        return Searched {
            ending: Ending::Found,
            left,
            steps: place.steps,
        };
    }
    let word = memory::word_at(file, work, tableau::literal_of(work, head));
    let reduced = reductions(file, work, task, place, entries::other_sign(word), left);
    if reduced.ending != Ending::Nothing {
        return reduced;
    }
    further(file, work, task, place, word, reduced.left)
}

// The search from the start, by the notes of the body's literals or by scans of it.
fn run(
    file: &[u32],
    work: &mut [u32],
    question: u32,
    conditions: Conditions,
    budget: u32,
) -> Searched
    requires { (length work.old ≡ work_words) × ((judge file.now).status ≡ 0) × (question ≡ (judge file.now).question) × (conditions.bound ≤ 32) × LinkedFor file.now work.old }
    ensures { Ran file.now work.old work.new question conditions budget result }
{
    let body = (file.len() - 4) as u32;
    let place = tableau::begin(file, work, question);
    let task = Task {
        body,
        question,
        bound: conditions.bound,
        restarts: conditions.restarts,
    };
    treat(file, work, task, place, budget)
}

// The literals of the body are noted and linked, and the search goes by them.
fn run_noted(
    file: &[u32],
    work: &mut [u32],
    question: u32,
    conditions: Conditions,
    budget: u32,
) -> Searched
    requires { (length work.old ≡ work_words) × ((judge file.now).status ≡ 0) × (question ≡ (judge file.now).question) × (conditions.bound ≤ 32) }
    ensures { Ends result.ending file.now work.new question conditions budget result }
{
    notes::note(file, work, (file.len() - 4) as u32);
    links::link(file, work);
    run(file, work, question, conditions, budget)
}

// The tries that a search by scans may make at most.
fn early(body: u32, budget: u32) -> u32
    ensures { result ≡ early_tries body budget }
{
    budget.min(body / 8)
}

// Whether a search by scans, with so many tries, is the search: it was not given up, nor did it stop for tries that the budget has.
#[tactic(auto, using(crate::proofs::Searching::Ended::settled_laws))]
fn settled(searched: Searched, most: u32, budget: u32) -> bool
    ensures { result ≡ settled_by searched.ending searched.left most budget }
{
    searched.ending != Ending::Out || (searched.left == 0 && most == budget)
}

// A closed tableau for the question within the bound, if the budget lasts; its steps stand among the work words, and no variable is numbered yet. A short search of a long body is made by scans, and its literals are noted only for a longer one.
pub fn find(
    file: &[u32],
    work: &mut [u32],
    question: u32,
    conditions: Conditions,
    budget: u32,
) -> Searched
    requires { (length work.old ≡ work_words) × ((judge file.now).status ≡ 0) × (question ≡ (judge file.now).question) × (conditions.bound ≤ 32) }
    ensures { Ends result.ending file.now work.new question conditions budget result }
{
    let body = (file.len() - 4) as u32;
    if body < SHORT {
        return run_noted(file, work, question, conditions, budget);
    }
    let most = early(body, budget);
    work[places::NOTED] = NOTHING;
    let first = run(file, work, question, conditions, most);
    if !settled(first, most, budget) {
        return run_noted(file, work, question, conditions, budget);
    }
    Searched {
        left: first.left + (budget - most),
        ..first
    }
}
