// The fields of a word, taken by shifts and masks and packed again (document 01, "Words of the question file").
ghost use Rattle.std.specs.Prelude.{◌≡◌, ◌+◌, ◌*◌, ◌%◌, ◌^◌, ◌<◌, ◌≤◌};
ghost use Rattle.words.specs.Fields.{bits, kind_of, number_of, symbol_of, arity_of, sign_of, negative_of, literals_of, variables_of, following_of, restricted_of};
ghost use Rattle.words.specs.Fields.{variable_shaped, function_shaped, literal_shaped, counted, clause_shaped, plain};
ghost use Rattle.words.specs.Fields.{variable_word, function_word, sign_bit, literal_word, mark_bit, clause_word};

// A word as an index or a count.
pub fn wide(x: u32) -> usize
    ensures { result ≡ x }
{
    x as usize
}

// The lowest bits of a number, so many.
#[tactic(auto, using(crate::proofs::Masks::lowest))]
pub(crate) fn low(x: u32, count: u32) -> u32
    requires { count < 32 }
    ensures { result ≡ x % 2 ^ count }
{
    x & ((1 << count) - 1)
}

// So many bits of a word, from a given bit upwards.
pub(crate) fn bits(w: u32, from: u32, count: u32) -> u32
    requires { (from < 32) × (count < 32) }
    ensures { result ≡ bits from count w }
{
    low(w >> from, count)
}

pub fn kind(w: u32) -> u32
    ensures { result ≡ kind_of w }
{
    bits(w, 30, 2)
}

pub fn number(w: u32) -> u32
    ensures { result ≡ number_of w }
{
    bits(w, 0, 10)
}

pub fn symbol(w: u32) -> u32
    ensures { result ≡ symbol_of w }
{
    bits(w, 0, 12)
}

pub fn arity(w: u32) -> u32
    ensures { result ≡ arity_of w }
{
    bits(w, 12, 3)
}

pub fn sign(w: u32) -> u32
    ensures { result ≡ sign_of w }
{
    bits(w, 15, 1)
}

pub fn negative(w: u32) -> bool
    ensures { result ≡ negative_of w }
{
    sign(w) == 1
}

pub fn literals(w: u32) -> u32
    ensures { result ≡ literals_of w }
{
    bits(w, 0, 3)
}

pub fn variables(w: u32) -> u32
    ensures { result ≡ variables_of w }
{
    bits(w, 3, 5)
}

pub fn following(w: u32) -> u32
    ensures { result ≡ following_of w }
{
    bits(w, 8, 8)
}

// The mark of a restricted clause.
pub fn restricted(w: u32) -> bool
    ensures { result ≡ restricted_of w }
{
    bits(w, 16, 1) == 1
}

// The word has this kind, and its bits from a given one up to bit 29 are zero.
pub(crate) fn plain(w: u32, wanted: u32, from: u32) -> bool
    requires { from < 30 }
    ensures { result ≡ plain wanted from w }
{
    kind(w) == wanted && bits(w, from, 30 - from) == 0
}

pub fn variable_shaped(w: u32) -> bool
    ensures { result ≡ variable_shaped w }
{
    plain(w, 0, 10)
}

#[tactic(auto, unfolding(crate::specs::Fields::function_shaped))]
pub fn function_shaped(w: u32) -> bool
    ensures { result ≡ function_shaped w }
{
    plain(w, 1, 15) && arity(w) <= 4
}

#[tactic(auto, unfolding(crate::specs::Fields::literal_shaped))]
pub fn literal_shaped(w: u32) -> bool
    ensures { result ≡ literal_shaped w }
{
    plain(w, 2, 16) && arity(w) <= 4
}

// The counts of a clause word are within their limits.
#[tactic(auto, unfolding(crate::specs::Fields::counted))]
pub(crate) fn counted(w: u32) -> bool
    ensures { result ≡ counted w }
{
    literals(w) != 0 && following(w) != 0 && variables(w) <= 16
}

#[tactic(auto, unfolding(crate::specs::Fields::clause_shaped))]
pub fn clause_shaped(w: u32) -> bool
    ensures { result ≡ clause_shaped w }
{
    plain(w, 3, 17) && counted(w)
}

// A number with so many low bits after it. The bits of both stay apart.
#[tactic(auto, using(crate::proofs::Masks::joined))]
pub(crate) fn join(high: u32, count: u32, rest: u32) -> u32
    requires { (count < 32) × (rest < 2 ^ count) × (high * 2 ^ count < 2 ^ 32) }
    ensures { result ≡ high * 2 ^ count + rest }
{
    (high << count) | rest
}

// Packing: a field keeps as many low bits as it has room for.
pub fn variable_word(number: u32) -> u32
    ensures { result ≡ variable_word (number % 2 ^ 10) }
{
    low(number, 10)
}

pub fn function_word(symbol: u32, arity: u32) -> u32
    ensures { result ≡ function_word (symbol % 2 ^ 12) (arity % 2 ^ 3) }
{
    join(join(1, 18, low(arity, 3)), 12, low(symbol, 12))
}

pub fn literal_word(negative: bool, predicate: u32, arity: u32) -> u32
    ensures { result ≡ literal_word negative (predicate % 2 ^ 12) (arity % 2 ^ 3) }
{
    let top = join(2, 15, u32::from(negative));
    join(join(top, 3, low(arity, 3)), 12, low(predicate, 12))
}

pub fn clause_word(restricted: bool, literals: u32, variables: u32, following: u32) -> u32
    ensures { result ≡ clause_word restricted (literals % 2 ^ 3) (variables % 2 ^ 5) (following % 2 ^ 8) }
{
    let top = join(join(3, 14, u32::from(restricted)), 8, low(following, 8));
    join(join(top, 5, low(variables, 5)), 3, low(literals, 3))
}
