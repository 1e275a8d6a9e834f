use cd_text::Octets;
use cd_wire::Answer;

/// How what was done with a scene that was lent has ended.
#[derive(Debug, Drop)]
pub enum Ended<'r> {
    Answered(Answer<'r>),
    /// It failed in the scene as it now is, with a status and a message.
    Failed(u16, Octets),
}

/// How far a request has come.
#[derive(Debug, Drop)]
pub enum Progress<'r> {
    /// What is to be done next.
    Goes(usize),
    Ends(Ended<'r>),
}
