/// What a read answers.
#[derive(Clone, Copy, Debug, PartialEq, Eq)]
pub enum Taken {
    /// So many bytes were read, from one to the length of the room that was handed in.
    Bytes(usize),
    /// Nothing is left.
    End,
    /// The read failed. The faults rose.
    Failed,
}
