// Who has a question searched or a proof checked, and by which rules.
#[derive(Clone, Copy)]
pub enum Asker {
    Collections,
    Education,
    Restart,
    RestartEducation,
}
