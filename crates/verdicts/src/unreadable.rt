// Proofs that cannot be read.
ghost use Rattle.std.specs.Prelude.{◌≡◌};
ghost use Rattle.text.specs.Put.{Put};
ghost use Rattle.verdicts.specs.Unreadable.{awaited_text, head_text, unreadable_text};

use assistant::place::Position;
use assistant::{excerpt, place};
use text::{part, put};
use written_proofs::read::Awaited;

fn expected(awaited: Awaited, out: &mut [u8], from: usize) -> usize
    ensures { Put out.old from (awaited_text awaited) out.new result }
{
    match awaited {
        Awaited::Step => put::bytes(
            out,
            from,
            b"expected `reduce` and a height, `extend` with a clause and a literal, or a step's word in hexadecimal digits\n",
        ),
        Awaited::Height => put::bytes(out, from, b"expected a height, 1 to 63\n"),
        Awaited::Clause => put::bytes(
            out,
            from,
            b"expected a clause: a name that one clause alone has, or a number\n",
        ),
        Awaited::Literal(_) => put::bytes(out, from, b"expected the number of a literal, 0 to 7\n"),
    }
}

// File, line and column.
fn head(name: &[u8], p: Position, out: &mut [u8], from: usize) -> usize
    ensures { Put out.old from (head_text name.now p) out.new result }
{
    let a = put::bytes(out, from, name);
    let b = place::labelled(out, a, b":", p.line);
    let c = place::labelled(out, b, b":", p.column);
    put::bytes(out, c, b": the proof goes wrong here\n")
}

// Where a proof's text goes wrong, and what was expected.
pub fn wrong(
    name: &[u8],
    said: &[u8],
    at: usize,
    awaited: Awaited,
    out: &mut [u8],
    from: usize,
) -> usize
    ensures { Put out.old from (unreadable_text name.now said.now at awaited) out.new result }
{
    let before = part::front(said, at);
    let rest = part::rest(said, at);
    let p = place::locate(before);
    let a = head(name, p, out, from);
    let b = excerpt::excerpt(out, a, before, rest, p.column);
    expected(awaited, out, b)
}
