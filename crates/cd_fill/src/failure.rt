use cd_text::Octets;

/// Why no handler answered.
#[derive(Debug, Drop)]
pub struct Failure {
    /// The status that the answer is to have.
    pub status: u16,
    /// What error routes may say of it, which may be empty.
    pub message: Octets,
}
