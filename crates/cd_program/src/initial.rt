use cd_tree::Tree;

/// Which configuration a run begins with.
#[derive(Drop)]
pub enum Initial {
    /// The one that the file after `--config` has.
    OfFile,
    /// The tree null, which says nothing. So the admin API alone answers.
    Null,
    /// This one, which was saved.
    Saved(Tree),
}
