use cd_path::Verb;

/// What a method asks for: to look, or to change.
#[derive(Clone, Copy, Debug)]
pub enum Action {
    /// GET.
    Look,
    /// POST, PUT, PATCH or DELETE.
    Change(Verb),
}
