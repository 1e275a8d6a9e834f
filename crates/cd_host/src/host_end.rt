use cd_life::Share;
use cd_module_set::ModuleSet;
use cd_outside::Key;

/// How a run of all lanes ended.
#[derive(Debug, Drop)]
pub enum HostHow {
    /// Each lane was served to its end.
    Served,
    /// This key of the first configuration could not be opened.
    FirstRefused(Key),
    /// The line that says that the program serves could not be written.
    WriteFault,
    /// There was no memory. What was made is cleaned.
    NoMemory,
}

/// What a run gives back.
pub struct HostEnd<M: ModuleSet, F, L> {
    pub fixtures: F,
    pub lanes: Vec<L>,
    /// How many requests were answered in whole. It stays at 2^64 - 1.
    pub answered: u64,
    /// How many configurations were published.
    pub published: u32,
    /// How many connections were interrupted for want of memory. It stays at 2^64 - 1.
    pub cut: u64,
    pub how: HostHow,
    /// The configuration that was published last, or the opening one. There is none where nothing was begun.
    pub last: Option<Share<M>>,
}
