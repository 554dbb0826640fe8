// A step decoded from a word and encoded again (document 01, "Tableau rules", and order 11).
ghost use Rattle.std.specs.Prelude.{◌≡◌};
ghost use Rattle.words.specs.Steps.{step_of, step_read, encoded};

use crate::Step;
use crate::fields::{bits, join, plain};

const RESTART: u32 = 0x8000_0000;

const MALFORMED: u32 = 0xC000_0000;

#[tactic(auto, unfolding(crate::specs::Steps::step_of))]
pub fn decode(w: u32) -> Step
    ensures { result ≡ step_of w }
{
    if plain(w, 0, 6) {
        let height = bits(w, 0, 6);
        if height == 0 {
            return Step::Malformed;
        }
        return Step::Reduction(height);
    }
    if plain(w, 1, 12) {
        return Step::Extension(bits(w, 0, 9), bits(w, 9, 3));
    }
    Step::Malformed
}

// The reading where leaves are restarted (order 11), or document 01's.
pub fn decode_for(restarts: bool, w: u32) -> Step
    ensures { result ≡ step_read restarts w }
{
    if restarts && w == RESTART {
        return Step::Restart;
    }
    decode(w)
}

#[tactic(auto, unfolding(crate::specs::Steps::encoded, crate::specs::Steps::well_formed, crate::specs::Steps::step_word))]
fn reduction(height: u32) -> u32
    ensures { result ≡ encoded (Step.Reduction height) }
{
    if height == 0 || height > 63 {
        return MALFORMED;
    }
    height
}

#[tactic(auto, unfolding(crate::specs::Steps::encoded, crate::specs::Steps::well_formed, crate::specs::Steps::step_word))]
fn extension(clause: u32, literal: u32) -> u32
    ensures { result ≡ encoded (Step.Extension clause literal) }
{
    if clause >= 512 || literal >= 8 {
        return MALFORMED;
    }
    join(join(1, 21, literal), 9, clause)
}

// A step that no word holds is written as the malformed one.
#[tactic(auto, unfolding(crate::specs::Steps::encoded, crate::specs::Steps::well_formed, crate::specs::Steps::step_word))]
pub fn encode(s: Step) -> u32
    ensures { result ≡ encoded s }
{
    match s {
        Step::Reduction(height) => reduction(height),
        Step::Extension(clause, literal) => extension(clause, literal),
        Step::Restart => RESTART,
        Step::Malformed => MALFORMED,
    }
}
