// Where each name is first used.
ghost use Rattle.std.specs.Prelude.{◌≡◌, length};
ghost use Rattle.naming.specs.Firsts.{Noted};

use words::fields;
use words::fields::wide;

// Notes the places of the names of a kind, each at its number: the words have the numbers of their names, by first use.
pub(crate) fn note(words: &[u32], places: &[u32], kind: u32, out: &mut [u32])
    requires { length places.now ≡ length words.now }
    ensures { Noted words.now places.now kind out.old out.new }
{
    let mut count = 0;
    for (i, w) in words.iter().enumerate() {
        if fields::kind(*w) != kind {
            continue;
        }
        if wide(fields::symbol(*w)) != count {
            continue;
        }
        if out.len() <= count {
            return;
        }
        out[count] = places[i];
        count += 1;
    }
}
