// The words of the items before their names are numbered.
ghost use Rattle.std.specs.Prelude.{◌≡◌, true, ◌/◌, ◌%◌, length};
ghost use Rattle.tptp.specs.Shapes.{shape_by, fits_by, shape_of, fits_of, Shaped};

use words::fields;

// At most 4 arguments, at most 7 literals.
#[tactic(auto, using(crate::proofs::Shaping::fits_laws))]
fn fits(mark: u32) -> bool
    ensures { result ≡ fits_of mark }
{
    let sort = mark % 8;
    let parts = mark / 8;
    parts <= if sort < 4 { 4 } else { 7 }
}

// The word of an item that has not too many parts, its number 0.
#[tactic(auto, using(crate::proofs::Shaping::shape_laws))]
fn shape(mark: u32) -> u32
    requires { fits_of mark ≡ true }
    ensures { result ≡ shape_of mark }
{
    let parts = mark / 8;
    match mark % 8 {
        0 => fields::variable_word(0),
        1 => fields::function_word(0, parts),
        2 => fields::literal_word(true, 0, parts),
        3 => fields::literal_word(false, 0, parts),
        _ => fields::clause_word(false, parts, 0, 0),
    }
}

// Writes the words of the marks, unless a mark has too many parts.

pub fn shapes(marks: &[u32], words: &mut [u32]) -> bool
    requires { length marks.now ≡ length words.old }
    ensures { Shaped marks.now words.old words.new result }
{
    for (i, mark) in marks.iter().enumerate() {
        if !fits(*mark) {
            return false;
        }
        words[i] = shape(*mark);
    }
    true
}
