// What the rules let be done with a leaf, by its sign.
ghost use Rattle.std.specs.Prelude.{◌≡◌};
ghost use Rattle.words.specs.Fields.{negative_of};
ghost use Rattle.rules.specs.Setting.{profile_of};

use words::fields;

// Whether a leaf with this word is restarted; it is extended where it is not.
#[tactic(auto, using(crate::proofs::Profiles::restarts_positive, crate::proofs::Profiles::restarts_none))]
pub fn restarts(restarting: bool, word: u32) -> bool
    ensures { result ≡ (profile_of restarting).restarts (negative_of word) }
{
    if restarting {
        return !fields::negative(word);
    }
    false
}
