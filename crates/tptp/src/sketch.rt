// The items of a text, gathered token by token: one for each word of the file's body. An item is a mark, which is its sort and eight times the number
// of its parts, and the place where its name begins.
ghost use Rattle.std.specs.Prelude.{◌≡◌, List, ℕ, ◌+◌, ◌-◌, ◌≤◌, ◌<◌, length};
ghost use Rattle.clausetext.specs.Texts.{Permitted};
ghost use Rattle.names.specs.Noting.{name_at};
ghost use Rattle.tptp.specs.Memory.{inner_of, Small, PartAdded, Ready, Further, adding, beginning, word_met, capital_met, mark_met, NameSort, Signed, Deepening, Empty, Gathered};
ghost use Rattle.tptp.specs.Sketch.{role_sort};

use clausetext::kind::Mark;
use clausetext::token;
use clausetext::token::Lexeme;
use words::fields::wide;

// How far a clause has been read: how many items and how many lists of parts there are, the stage of the clause, and whether `~` came last.
#[derive(Clone, Copy)]
pub struct Progress {
    pub count: usize,
    pub depth: usize,
    pub stage: usize,
    pub negative: bool,
}

// The innermost item has one part more.

fn add_part(marks: &mut [u32], inner: &[u32], count: usize, depth: usize)
    requires { (count ≤ length marks.old) × (count ≤ 65535) × (depth ≤ length inner.now) × Small marks.old count }
    ensures { PartAdded marks.old (inner_of inner.now depth) count marks.new }
{
    if depth == 0 {
        return;
    }
    let top = wide(inner[depth - 1]);
    if top < count {
        marks[top] += 8;
    }
}

// An item becomes a part of the innermost.
fn add(
    marks: &mut [u32],
    places: &mut [u32],
    inner: &[u32],
    p: Progress,
    sort: u32,
    start: u32,
) -> Progress
    requires { (sort < 8) × Ready marks.old places.old inner.now p }
    ensures { (text : List ℕ) → Further text (adding sort (name_at text start)) marks.old places.old inner.now p marks.new places.new inner.now result }
{
    let count = p.count;
    let depth = p.depth;
    add_part(marks, inner, count, depth);
    marks[count] = sort;
    places[count] = start;
    Progress {
        count: count + 1,
        depth,
        stage: 7,
        negative: false,
    }
}

// Only the stage moves on.
fn pass(p: Progress) -> Progress
    requires { p.stage < 6 }
    ensures { result ≡ record { count = p.count; depth = p.depth; stage = p.stage + 1; negative = p.negative } }
{
    Progress {
        stage: p.stage + 1,
        ..p
    }
}

// The role is known by its first byte.
fn role_sort(text: &[u8], start: usize) -> u32
    ensures { (result < 8) × (result ≡ role_sort (name_at text.now start)) }
{
    if text.len() <= start {
        return 4;
    }
    if text[start] == b'n' {
        return 5;
    }
    4
}

// A clause begins with its role.
fn begin(
    text: &[u8],
    marks: &mut [u32],
    places: &mut [u32],
    inner: &mut [u32],
    p: Progress,
    start: u32,
) -> Progress
    requires { Ready marks.old places.old inner.old p }
    ensures { Further text.now (beginning (name_at text.now start)) marks.old places.old inner.old p marks.new places.new inner.new result }
{
    let count = p.count;
    marks[count] = role_sort(text, wide(start));
    places[count] = start;
    inner[0] = count as u32;
    Progress {
        count: count + 1,
        depth: 1,
        stage: 5,
        negative: false,
    }
}

// A name is a predicate where the clause is the innermost.
fn name_sort(depth: usize, negative: bool) -> u32
    ensures { NameSort depth negative result }
{
    if 1 < depth {
        return 1;
    }
    if negative {
        return 2;
    }
    3
}

// A word that begins lower-case.
fn on_word(
    text: &[u8],
    marks: &mut [u32],
    places: &mut [u32],
    inner: &mut [u32],
    p: Progress,
    start: u32,
) -> Progress
    requires { Ready marks.old places.old inner.old p }
    ensures { Further text.now (word_met (name_at text.now start)) marks.old places.old inner.old p marks.new places.new inner.new result }
{
    let stage = p.stage;
    if 6 <= stage {
        let sort = name_sort(p.depth, p.negative);
        return add(marks, places, inner, p, sort, start);
    }
    if stage == 4 {
        return begin(text, marks, places, inner, p, start);
    }
    pass(p)
}

// A word that begins upper-case.
fn on_capital(
    marks: &mut [u32],
    places: &mut [u32],
    inner: &[u32],
    p: Progress,
    start: u32,
) -> Progress
    requires { Ready marks.old places.old inner.now p }
    ensures { (text : List ℕ) → Further text (capital_met (name_at text start)) marks.old places.old inner.now p marks.new places.new inner.now result }
{
    let stage = p.stage;
    if 6 <= stage {
        return add(marks, places, inner, p, 0, start);
    }
    pass(p)
}

// `(` in a formula: after a name its arguments are read; at the formula's beginning it is passed over.

fn enter(inner: &mut [u32], p: Progress) -> Progress
    requires { (6 ≤ p.stage) × Deepening inner.old p }
    ensures { Signed (mark_met Mark.Open) inner.old p inner.new result }
{
    if p.stage == 6 {
        return Progress { stage: 7, ..p };
    }
    inner[p.depth] = p.count.saturating_sub(1) as u32;
    Progress {
        depth: p.depth + 1,
        stage: 7,
        ..p
    }
}

// `)` in a formula: after the last argument the list ends; any other is passed over.

fn leave(p: Progress) -> Progress
    requires { 6 ≤ p.stage }
    ensures { (inner : List ℕ) → length inner ≡ 65536 → Signed (mark_met Mark.Close) inner p inner result }
{
    if p.depth <= 1 {
        return Progress { stage: 7, ..p };
    }
    Progress {
        depth: p.depth - 1,
        stage: 7,
        ..p
    }
}

// A sign.

fn on_mark(inner: &mut [u32], p: Progress, mark: Mark) -> Progress
    requires { Deepening inner.old p }
    ensures { Signed (mark_met mark) inner.old p inner.new result }
{
    if p.stage < 6 {
        return pass(p);
    }
    match mark {
        Mark::Open => enter(inner, p),
        Mark::Close => leave(p),
        Mark::Comma | Mark::Bar => p,
        Mark::Tilde => Progress {
            stage: 7,
            negative: true,
            ..p
        },
        Mark::Dot => Progress {
            depth: 0,
            stage: 0,
            negative: false,
            ..p
        },
    }
}

#[tactic(auto, using(crate::proofs::Walk::walk_laws))]
// Gathers the items of a permitted text, and tells how many there are.
pub fn gather(text: &[u8], marks: &mut [u32], places: &mut [u32], inner: &mut [u32]) -> usize
    requires { (length text.now ≤ 65536) × Permitted text.now × Empty marks.old places.old inner.old }
    ensures { Gathered text.now marks.new places.new result }
{
    let mut p = Progress {
        count: 0,
        depth: 0,
        stage: 0,
        negative: false,
    };
    let mut at = 0;
    while let Some(lexeme) = token::next(text, at) {
        match lexeme {
            Lexeme::Word { start, stop } => {
                p = on_word(text, marks, places, inner, p, start as u32);
                at = stop;
            }
            Lexeme::Capital { start, stop } => {
                p = on_capital(marks, places, inner, p, start as u32);
                at = stop;
            }
            Lexeme::Sign { mark, stop } => {
                p = on_mark(inner, p, mark);
                at = stop;
            }
        }
    }
    p.count
}
