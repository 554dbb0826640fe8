// `ask`: a question put to a text, and all that is written of it.
ghost use Rattle.std.specs.Prelude.{◌≡◌, ◌≤◌};
ghost use Rattle.table.specs.File.{judge};
ghost use Rattle.answering.specs.Asking.{Asks};
ghost use Rattle.answering.specs.Refusing.{Refused};
ghost use Rattle.answering.specs.Telling.{Answered};

use crate::{Options, look, refuse, rooms, tell};
use assistant::result;
use hukolearu::calls;
use text::{part, put};
use tptp::TextRead;
use words::fields::wide;
use words::room;

fn refused(name: &[u8], text: &[u8], read: TextRead, out: &mut [u8]) -> usize
    ensures { Refused name.now text.now read out.old out.new result }
{
    let a = refuse::refusal(out, 0, name, text, read);
    result::szs(out, a, b"InputError", name)
}

// The question of a file put bound by bound, and the result.
fn answer(
    rt: &impl Eprint,
    watched: bool,
    o: Options,
    name: &[u8],
    text: &[u8],
    file: &[u32],
    out: &mut [u8],
) -> usize
    requires { ((judge file.now).status ≡ 0) × (o.limit ≤ 32) }
    ensures { Answered o name.now text.now file.now out.old out.new result }
{
    let mut proof: [u32; calls::LONGEST_PROOF] = room::filled(0);
    let mut words: [u32; rooms::ANSWER] = room::filled(0);
    let mut work: [u32; rooms::FILE] = room::filled(0);
    let l = look::look(
        rt, watched, file, o.limit, o.budget, &mut proof, &mut words, &mut work,
    );
    let steps = wide(l.outcome.proof);
    let count = wide(l.outcome.answer);
    tell::result(
        o,
        name,
        text,
        file,
        l,
        part::front(&proof, steps),
        part::front(&words, count),
        out,
        0,
    )
}

// What `ask` writes of a text whose file has this name, whether someone watches or not.
pub fn ask(
    rt: &impl Eprint,
    watched: bool,
    o: Options,
    name: &[u8],
    text: &[u8],
    out: &mut [u8],
) -> usize
    ensures { Asks o name.now text.now out.old out.new result }
{
    if 32 < o.limit {
        return put::bytes(out, 0, b"The limit is over 32.\n");
    }
    let mut file: [u32; rooms::FILE] = room::filled(0);
    let read = tptp::call::read(text, &mut file);
    if read.status != 0 {
        return refused(name, text, read, out);
    }
    answer(
        rt,
        watched,
        o,
        name,
        text,
        part::front(&file, wide(read.words)),
        out,
    )
}
