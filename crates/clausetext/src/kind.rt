// What a byte of a text is.
ghost use Rattle.std.specs.Prelude.{◌≡◌};
ghost use Rattle.clausetext.specs.Kinds.{kind_of, goes_on};

// The signs of the text.
#[derive(Clone, Copy)]
pub enum Mark {
    Open,
    Close,
    Comma,
    Bar,
    Tilde,
    Dot,
}

// A byte by its part in tokens, blanks and comments.
#[derive(Clone, Copy)]
pub enum Kind {
    Blank,
    Percent,
    Lower,
    Upper,
    Further,
    Sign(Mark),
    Other,
}

#[tactic(auto, unfolding(crate::specs::Kinds::kind_of, crate::specs::Kinds::sign_kind, crate::specs::Kinds::letter_kind))]
pub fn kind_of(c: u8) -> Kind
    ensures { result ≡ kind_of c }
{
    match c {
        b' ' | b'\t' | b'\r' | b'\n' => Kind::Blank,
        b'%' => Kind::Percent,
        b'(' => Kind::Sign(Mark::Open),
        b')' => Kind::Sign(Mark::Close),
        b',' => Kind::Sign(Mark::Comma),
        b'|' => Kind::Sign(Mark::Bar),
        b'~' => Kind::Sign(Mark::Tilde),
        b'.' => Kind::Sign(Mark::Dot),
        b'a'..=b'z' => Kind::Lower,
        b'A'..=b'Z' => Kind::Upper,
        b'0'..=b'9' | b'_' => Kind::Further,
        _ => Kind::Other,
    }
}

// A name or a variable goes on.
pub fn goes_on(kind: Kind) -> bool
    ensures { result ≡ goes_on kind }
{
    matches!(kind, Kind::Lower | Kind::Upper | Kind::Further)
}
