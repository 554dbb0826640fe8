// The pieces of a line, with blanks between them; `%` begins a comment.
ghost use Rattle.std.specs.List.{position};
ghost use Rattle.std.specs.Prelude.{◌≡◌, ◌+◌, drop};
ghost use Rattle.reports.specs.Records.{is_blank, is_inked, ends_piece, blanks_in, piece_in, piece_from, piece_bytes};

use text::part;

// Where a piece begins and ends; it is empty where the line has no piece more.
#[derive(Clone, Copy)]
pub struct Piece {
    pub start: usize,
    pub end: usize,
}

#[tactic(auto, unfolding(crate::specs::Records::is_blank))]
fn blank(c: u8) -> bool
    ensures { result ≡ is_blank c }
{
    matches!(c, b' ' | b'\t' | b'\r')
}

#[tactic(auto, unfolding(crate::specs::Records::ends_piece))]
fn ends_piece(c: u8) -> bool
    ensures { result ≡ ends_piece c }
{
    c == b'%' || blank(c)
}

fn first_inked(line: &[u8]) -> Option<usize>
    ensures { result ≡ position is_inked line.now }
{
    line.iter().position(|c| !blank(*c))
}

fn first_end(line: &[u8]) -> Option<usize>
    ensures { result ≡ position ends_piece line.now }
{
    line.iter().position(|c| ends_piece(*c))
}

// Past the blanks.
#[tactic(auto, using(crate::proofs::Lining::skip_laws))]
fn skip(line: &[u8], from: usize) -> usize
    ensures { result ≡ from + blanks_in (drop from line.now) }
{
    let tail = part::rest(line, from);
    from + first_inked(tail).unwrap_or(tail.len())
}

// Past the bytes of a piece.
#[tactic(auto, using(crate::proofs::Lining::stop_laws))]
fn stop(line: &[u8], from: usize) -> usize
    ensures { result ≡ from + piece_in (drop from line.now) }
{
    let tail = part::rest(line, from);
    from + first_end(tail).unwrap_or(tail.len())
}

// The first piece from a place on.
#[tactic(auto, using(crate::proofs::Lining::piece_is))]
pub fn next_piece(line: &[u8], from: usize) -> Piece
    ensures { result ≡ piece_from line.now from }
{
    let start = skip(line, from);
    let end = stop(line, start);
    Piece { start, end }
}

#[tactic(auto, using(crate::proofs::Lining::bytes_are))]
pub fn bytes(line: &[u8], p: Piece) -> &[u8]
    ensures { result.now ≡ piece_bytes line.now p }
{
    let upto = part::front(line, p.end);
    part::rest(upto, p.start)
}
