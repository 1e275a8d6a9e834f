//! The matcher `host`.
ghost use Rattle.std.specs.Prelude.{◌≡◌, length};
ghost use Rattle.std.specs.List.{position_or_len};
ghost use Rattle.cd_match.specs.Host.{host_matcher, is_dot, label_fits, host_fits, host_holds};

use cd_fill::{Scene, host_without_port};
use cd_module::{LoadFault, Settings};
use cd_text::{List, Text, split_at_byte};
use cd_tree::{Place, Tree};
use std::alloc::Global;

/// Holds where the host that is asked for, without its port, fits one of the patterns. A pattern fits a host with as many
/// labels, where each label is the same in any case or `*`. Without patterns it never holds.
#[derive(Debug, Drop)]
pub struct HostMatcher {
    pub patterns: List<Text>,
}

impl Settings for HostMatcher {
    ghost reader = { host_matcher };

    #[tactic(auto, unfolding(crate::specs::Host::host_matcher))]
    fn read(alloc: Global, tree: &Tree, at: &Place<'_>) -> Result<HostMatcher, LoadFault> {
        let patterns = List::<Text>::read(alloc, tree, at)?;
        Ok(HostMatcher { patterns })
    }
}

fn label_fits(wanted: &[u8], label: &[u8]) -> bool
    ensures { result ≡ label_fits wanted.now label.now }
{
    wanted == b"*".as_slice() || wanted.eq_ignore_ascii_case(label)
}

// Whether the host is one label, which fits a pattern of one label.
fn last_fits(pattern: &[u8], host: &[u8]) -> bool
    requires { position_or_len is_dot pattern.now ≡ length pattern.now }
    ensures { result ≡ host_fits pattern.now host.now }
{
    match split_at_byte(host, b'.') {
        Some(_) => false,
        None => label_fits(pattern, host),
    }
}

// Whether the host has as many labels as the pattern, and each fits.
fn host_fits(pattern: &[u8], host: &[u8]) -> bool
    ensures { result ≡ host_fits pattern.now host.now }
{
    let mut wanted = pattern;
    let mut left = host;
    while let Some((label_wanted, others)) = split_at_byte(wanted, b'.') {
        let Some((label, behind)) = split_at_byte(left, b'.') else {
            return false;
        };
        if !label_fits(label_wanted, label) {
            return false;
        }
        wanted = others;
        left = behind;
    }
    last_fits(wanted, left)
}

impl HostMatcher {
    /// Whether it holds. It takes no memory.
    pub fn holds(&self, scene: &Scene<'_>) -> bool
        ensures { result ≡ host_holds self.now scene.now }
    {
        let host = host_without_port(scene.host.as_slice());
        self.patterns
            .as_slice()
            .iter()
            .any(|pattern| host_fits(pattern.as_str().as_bytes(), host))
    }
}
