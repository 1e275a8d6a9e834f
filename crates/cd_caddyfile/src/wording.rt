//! The words of a fault.
ghost use Rattle.std.specs.Prelude.{◌≡◌, IfOk};
ghost use Rattle.cd_caddyfile.specs.Wording.{kind_words, fault_words};

use crate::fault::{CaddyfileFault, CaddyfileKind};
use cd_text::{NoMemory, Text};
use std::alloc::Global;

/// The words of a fault: `line N: ` and those of its kind.
pub fn fault_words(alloc: Global, fault: &CaddyfileFault) -> Result<Text, NoMemory>
    ensures { IfOk result (λ made. made ≡ fault_words fault.now) }
{
    let line = fault.line;
    let kind = kind_words(fault.kind);
    Ok(Text::from_string(format!(in alloc; "line {line}: {kind}")?))
}

fn kind_words(kind: CaddyfileKind) -> &'static str
    ensures { result.now ≡ kind_words kind }
{
    match kind {
        CaddyfileKind::BadText => "bad text",
        CaddyfileKind::BadBlock => "bad block",
        CaddyfileKind::BadAddress => "bad site address",
        CaddyfileKind::RepeatedSite => "repeated site",
        CaddyfileKind::UnknownDirective => "unknown directive",
        CaddyfileKind::BadArguments => "bad arguments",
        CaddyfileKind::UnknownMatcher => "unknown matcher",
        CaddyfileKind::RepeatedMatcher => "repeated matcher",
        CaddyfileKind::TooLong => "too long",
        CaddyfileKind::TooDeep => "nested too deeply",
        CaddyfileKind::NoMemory => "out of memory",
    }
}
