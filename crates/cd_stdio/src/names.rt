//! What the names of log writers say.
ghost use Rattle.std.specs.Prelude.{◌≡◌};
ghost use Rattle.std.specs.Option.{option_copied};
ghost use Rattle.cd_stdio.specs.Names.{stream_of, filename_of};

/// A log writer that needs no opening.
#[derive(Clone, Copy, Debug, PartialEq, Eq)]
pub enum Stream {
    /// Standard output.
    Output,
    /// Standard error.
    Error,
    /// The lines are dropped.
    Nowhere,
}

/// The stream with this name: `stdout`, `stderr` or `discard`.
pub fn stream_of(name: &str) -> Option<Stream>
    ensures { result ≡ stream_of name.now }
{
    match name {
        "stdout" => Some(Stream::Output),
        "stderr" => Some(Stream::Error),
        "discard" => Some(Stream::Nowhere),
        _ => None,
    }
}

/// The filename, where the name is `file:` and a filename.
pub fn filename_of(name: &str) -> Option<&str>
    ensures { option_copied result ≡ filename_of name.now }
{
    match name.split_once(':') {
        Some(("file", path)) => Some(path),
        _ => None,
    }
}
