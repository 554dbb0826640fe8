// The first lines of a result, and the lines for other tools.
ghost use Rattle.std.specs.Prelude.{◌≡◌};
ghost use Rattle.text.specs.Put.{Put};
ghost use Rattle.assistant.specs.Results.{cost_text, found_text, too_long_text, larger_text, none_text, ran_out_text, szs_text, behind_text};

use crate::place;
use text::put;

fn cost(out: &mut [u8], at: usize, bound: u32, tries: u32) -> usize
    ensures { Put out.old at (cost_text bound tries) out.new result }
{
    let a = put::field(out, at, b" (bound ", bound);
    let b = put::field(out, a, b", tries ", tries);
    put::bytes(out, b, b")\n")
}

// Found: definite, or with so many alternatives.
pub fn found(out: &mut [u8], at: usize, disjuncts: u32, bound: u32, tries: u32) -> usize
    ensures { Put out.old at (found_text disjuncts bound tries) out.new result }
{
    if disjuncts == 1 {
        let a = put::bytes(out, at, b"Found: a definite answer");
        return cost(out, a, bound, tries);
    }
    let a = put::field(out, at, b"Found: an answer with ", disjuncts);
    let b = put::bytes(out, a, b" alternatives, not definite");
    cost(out, b, bound, tries)
}

pub fn too_long(out: &mut [u8], at: usize, bound: u32, tries: u32) -> usize
    ensures { Put out.old at (too_long_text bound tries) out.new result }
{
    let a = put::bytes(
        out,
        at,
        b"Found: an answer too long to be shown, over 4096 words",
    );
    cost(out, a, bound, tries)
}

fn larger(out: &mut [u8], at: usize, limit: u32) -> usize
    ensures { Put out.old at (larger_text limit) out.new result }
{
    if limit < 32 {
        return put::bytes(
            out,
            at,
            b"Try a larger limit (--limit, up to 32), or add the clause that is missing.\n",
        );
    }
    put::bytes(
        out,
        at,
        b"32 is the largest limit. Add the clause that is missing, or ask for less.\n",
    )
}

pub fn none(out: &mut [u8], at: usize, limit: u32, tries: u32) -> usize
    ensures { Put out.old at (none_text limit tries) out.new result }
{
    let a = put::field(out, at, b"None up to ", limit);
    let b = put::field(
        out,
        a,
        b": no proof uses so few clauses; it looked everywhere, in ",
        tries,
    );
    let c = put::bytes(out, b, b" tries.\n");
    larger(out, c, limit)
}

pub fn ran_out(out: &mut [u8], at: usize, bound: u32, tries: u32) -> usize
    ensures { Put out.old at (ran_out_text bound tries) out.new result }
{
    let a = put::field(out, at, b"Ran out at ", bound);
    let b = put::field(out, a, b" after ", tries);
    put::bytes(
        out,
        b,
        b" tries: nothing is known yet.\nTry a larger budget (--budget, up to 4294967295), or a slimmer table (hukolearu slim).\n",
    )
}

// A line for other tools: how it ended, in the words of the SZS ontology.
pub fn szs(out: &mut [u8], at: usize, status: &[u8], name: &[u8]) -> usize
    ensures { Put out.old at (szs_text status.now name.now) out.new result }
{
    let a = place::both(out, at, b"% SZS status ", status);
    let b = place::both(out, a, b" for ", name);
    put::byte(out, b, b'\n')
}

// A clause behind the answer, and how often it was used.
pub fn behind(out: &mut [u8], at: usize, name: &[u8], copies: u32) -> usize
    ensures { Put out.old at (behind_text name.now copies) out.new result }
{
    let a = place::both(out, at, b"  ", name);
    let b = put::field(out, a, b" ", copies);
    put::byte(out, b, b'\n')
}
