// The literals of the body, found by a scan of its words.
ghost use Rattle.std.specs.Prelude.{◌≡◌, ◌≤◌, length, take};
ghost use Rattle.words.specs.Fields.{kind_of};
ghost use Rattle.index.specs.Scanning.{Standing, IsNext};

use crate::entries::Scan;
use crate::{entries, notes};
use words::fields;

// The next literal with a word, from where a scan stands.
pub fn next(file: &[u32], body: u32, wanted: u32, from: Scan) -> Option<Scan>
    requires { (body ≤ length file.now) × (body ≤ 16000) × (kind_of wanted ≡ 2) × Standing (take body file.now) from }
    ensures { IsNext (take body file.now) wanted from result }
{
    let mut scan = from;
    while scan.at < body {
        let here = scan;
        let word = file[fields::wide(here.at)];
        if word == wanted {
            return Some(here);
        }
        scan = notes::past_plain(file, entries::past(here, word), body);
    }
    None
}
