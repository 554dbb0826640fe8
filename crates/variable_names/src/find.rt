// Where a clause's items stand.
ghost use Rattle.std.specs.Prelude.{◌≡◌};
ghost use Rattle.variable_names.specs.Finding.{sorts, how_many, behind, place_of};

#[tactic(auto, using(crate::proofs::Walks::how_many_counted))]
fn how_many(marks: &[u32], sort: u32) -> usize
    ensures { result ≡ how_many sort (sorts marks.now) }
{
    marks.iter().filter(|mark| **mark % 8 == sort).count()
}

// The place behind the so-many-th mark of a sort; the end where there are not so many, from which no items follow.
fn behind(marks: &[u32], sort: u32, number: usize) -> usize
    ensures { result ≡ behind sort number (sorts marks.now) }
{
    let mut left = number;
    for (at, mark) in marks.iter().enumerate() {
        if *mark % 8 != sort {
            continue;
        }
        if left == 0 {
            return at + 1;
        }
        left -= 1;
    }
    marks.len()
}

// Where the items of the literals of a clause begin, by its number in the file: the question is last.
pub(crate) fn place(marks: &[u32], clause: usize) -> usize
    ensures { result ≡ place_of clause (sorts marks.now) }
{
    let stated = how_many(marks, 4);
    if clause < stated {
        return behind(marks, 4, clause);
    }
    if clause == stated {
        return behind(marks, 5, 0);
    }
    marks.len()
}
