ghost use Rattle.std.specs.Prelude.{◌≡◌, ◌==◌};
ghost use Rattle.std.specs.List.{before_first};
ghost use Rattle.cd_fill.specs.Values.{bare_host};

use cd_text::split_at_byte;

fn before_byte(text: &[u8], byte: u8) -> &[u8]
    ensures { result.now ≡ before_first (λ other. other == byte) text.now }
{
    match split_at_byte(text, byte) {
        Some((before, _)) => before,
        None => text,
    }
}

/// A host without its port. An address in brackets comes without them.
#[tactic(auto, unfolding(crate::specs::Values::bare_host))]
pub fn host_without_port(host: &[u8]) -> &[u8]
    ensures { result.now ≡ bare_host host.now }
{
    if host.starts_with(b"[") {
        before_byte(&host[1..], b']')
    } else {
        before_byte(host, b':')
    }
}
