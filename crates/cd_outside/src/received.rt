/// What a read into an intake answers.
#[derive(Clone, Copy, Debug, PartialEq, Eq)]
pub enum Received {
    /// More bytes came, one at least, and stand behind those that were there.
    Some,
    /// Nothing is left.
    End,
    /// The read failed. The faults rose.
    Failed,
    /// Bytes came for which there is no memory. They are lost.
    Lacking,
}
