// What is looked for in the lent buffers, which are filled before every call.
ghost use Rattle.std.specs.Prelude.{◌≡◌};
ghost use Rattle.std.specs.List.{list_all};
ghost use Rattle.results.specs.Buffers.{all_are, both_untouched, work_kept, text_kept, kept, written};

fn all<T: PartialEq>(list: &[T], value: &T) -> bool
    ensures { result ≡ list_all (λ w. T.eq w value.now) list.now }
{
    list.iter().all(|w| w == value)
}

// Words that a call should not have changed.
pub fn untouched(list: &[u32]) -> bool
    ensures { result ≡ all_are 0xA5A5A5A5 list.now }
{
    all(list, &0xA5A5A5A5)
}

// Bytes that a call should not have changed.
pub fn untouched_bytes(list: &[u8]) -> bool
    ensures { result ≡ all_are 0xA5 list.now }
{
    all(list, &0xA5)
}

#[tactic(auto, unfolding(crate::specs::Buffers::both_untouched))]
pub fn both_untouched(a: &[u32], b: &[u32]) -> bool
    ensures { result ≡ both_untouched a.now b.now }
{
    untouched(a) && untouched(b)
}

// The work words are as the status says.
#[tactic(auto, unfolding(crate::specs::Buffers::work_kept))]
pub fn work_kept(status: u32, work: &[u32]) -> bool
    ensures { result ≡ work_kept status work.now }
{
    if status == 1 {
        return untouched(work);
    }
    if work.len() < 16384 {
        return false;
    }
    let (shared, rest) = work.split_at(16384);
    all(shared, &0) && untouched(rest)
}

// So are they, and the bytes after a text are unchanged.
#[tactic(auto, unfolding(crate::specs::Buffers::text_kept))]
pub fn text_kept(status: u32, text: &[u8], work: &[u32]) -> bool
    ensures { result ≡ text_kept status text.now work.now }
{
    work_kept(status, work) && untouched_bytes(text)
}

// So are they, and the words after the proof and after the answer are unchanged.
#[tactic(auto, unfolding(crate::specs::Buffers::kept))]
pub fn kept(status: u32, proof: &[u32], answer: &[u32], work: &[u32]) -> bool
    ensures { result ≡ kept status proof.now answer.now work.now }
{
    work_kept(status, work) && untouched(proof) && untouched(answer)
}

// How many words of a buffer were written: up to the last that is not as it was filled.
#[tactic(auto, using(crate::proofs::Kept::written_here, crate::proofs::Kept::written_less, crate::proofs::Kept::written_begin, crate::proofs::Kept::written_none))]
pub fn written(list: &[u32]) -> usize
    ensures { result ≡ written list.now }
{
    for i in (0..list.len()).rev() {
        if list[i] != 0xA5A5A5A5 {
            return i + 1;
        }
    }
    0
}
