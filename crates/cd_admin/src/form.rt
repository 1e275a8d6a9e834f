/// What a body is written in.
#[derive(Clone, Copy, Debug)]
pub enum Form {
    Json,
    Caddyfile,
}
