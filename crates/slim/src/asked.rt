// An accepted file with its question, which the functions that go through its clauses pass on together.
ghost use Rattle.std.specs.Prelude.{◌≡◌, ◌+◌, ◌<◌, length, get_or};
ghost use Rattle.words.specs.Fields.{following_of};
ghost use Rattle.slim.specs.Walking.{Ready, ready_once};

// The words of an accepted file, and where its question begins.
#[derive(Clone, Copy, Drop)]
pub(crate) struct Asked<'a> {
    pub(crate) file: &'a [u32],
    pub(crate) question: usize,
    ghost ready: { Ready file.now question } by { ready_once file.now question },
}

impl Asked<'_> {
    // Where the clause after this one begins.
    #[tactic(auto, using(crate::proofs::Walks::file_short))]
    pub(crate) fn after(self, at: usize) -> usize
        requires { at < length self.file.now }
        ensures { result ≡ at + (following_of (get_or self.entry.file.now at 0) + 1) }
    {
        crate::dropping::after(self.file, at)
    }
}
