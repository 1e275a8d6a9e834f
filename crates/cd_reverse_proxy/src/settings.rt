//! What the words of the command ask for.
ghost use Rattle.std.specs.Prelude.{◌≡◌, ◌≤◌, ◌<◌, length, Ok, IfOk};
ghost use Rattle.std.specs.List.{list_any};
ghost use Rattle.cd_text.specs.Gives.{Gives};
ghost use Rattle.cd_addr.specs.Addresses.{is_address};
ghost use Rattle.cd_peers.specs.declared.limits.TheConstants.{MAX_UPSTREAMS};
ghost use Rattle.cd_reverse_proxy.specs.Settings.{are_distinct, one_address, only_one, policy_of, settings, settings_of, to_each, upstream, upstreams};

use cd_addr::{AddrFault, read};
use cd_outside::Address;
use cd_peers::{MAX_UPSTREAMS, Policy};
use cd_text::{List, NoMemory, Text};
use std::alloc::Global;

/// What a reverse proxy is to do.
#[derive(Debug, Drop)]
pub struct ProxySettings {
    /// The address that is listened on.
    pub from: Address,
    /// By which rule the upstream of a request is picked.
    pub policy: Policy,
    /// 1 to `MAX_UPSTREAMS` upstreams, all different, each with a host.
    pub upstreams: List<Address>,
}

/// Why words give no settings.
#[derive(Clone, Copy, Debug, PartialEq, Eq)]
pub enum WordsFault {
    /// They are not those of the command.
    Unknown,
    /// Out of memory.
    NoMemory,
}

impl From<NoMemory> for WordsFault {
    ghost use Rattle.std.specs.Prelude.{◌≡◌};
    ghost use Rattle.cd_reverse_proxy.specs.declared.settings.WordsFault.TheVariants.{NoMemory as out_of_memory};

    ghost from_gives = { λ _ fault. fault ≡ out_of_memory };

    fn from(_: NoMemory) -> WordsFault {
        WordsFault::NoMemory
    }
}

/// The settings that these words give: `reverse-proxy --from A --policy P`, and then 1 to 16 pairs `--to U`. `Unknown` where they are
/// not so.
pub fn read_settings(alloc: Global, words: &[Text]) -> Result<ProxySettings, WordsFault>
    ensures settings { Gives WordsFault.NoMemory result (settings words.now) }
    ensures some { IfOk result (λ found. 0 < length found.upstreams) }
    ensures few { IfOk result (λ found. length found.upstreams ≤ MAX_UPSTREAMS) }
{
    match words {
        [
            command,
            from_option,
            from,
            policy_option,
            policy,
            pairs @ ..,
        ] if command.equals("reverse-proxy")
            && from_option.equals("--from")
            && policy_option.equals("--policy") => { read_values(alloc, from, policy, pairs) }
        _ => Err(WordsFault::Unknown),
    }
}

fn read_values(
    alloc: Global,
    from: &Text,
    policy: &Text,
    pairs: &[Text],
) -> Result<ProxySettings, WordsFault>
    ensures settings { Gives WordsFault.NoMemory result (settings_of from.now policy.now pairs.now) }
    ensures some { IfOk result (λ found. 0 < length found.upstreams) }
    ensures few { IfOk result (λ found. length found.upstreams ≤ MAX_UPSTREAMS) }
{
    let from = read_one(alloc, from)?;
    let policy = read_policy(policy)?;
    let upstreams = read_upstreams(alloc, pairs)?;
    Ok(ProxySettings {
        from,
        policy,
        upstreams,
    })
}

// The address of a text that writes exactly one.
#[tactic(auto, unfolding(crate::specs::Settings::one_address))]
fn read_one(alloc: Global, text: &Text) -> Result<Address, WordsFault>
    ensures { Gives WordsFault.NoMemory result (one_address text.now) }
{
    match read(alloc, text) {
        Ok(found) => only_one(alloc, found.as_slice()),
        Err(AddrFault::NoMemory) => Err(WordsFault::NoMemory),
        Err(_) => Err(WordsFault::Unknown),
    }
}

fn only_one(alloc: Global, found: &[Address]) -> Result<Address, WordsFault>
    ensures { Gives WordsFault.NoMemory result (only_one (Ok found.now)) }
{
    match found {
        [address] => Ok(address.copy(alloc)?),
        _ => Err(WordsFault::Unknown),
    }
}

fn read_policy(word: &Text) -> Result<Policy, WordsFault>
    ensures { result ≡ policy_of word.now }
{
    if word.equals("first") {
        Ok(Policy::First)
    } else if word.equals("round_robin") {
        Ok(Policy::RoundRobin)
    } else if word.equals("least_conn") {
        Ok(Policy::LeastConn)
    } else {
        Err(WordsFault::Unknown)
    }
}

// The address of an upstream, which has a host.
#[tactic(auto, unfolding(crate::specs::Settings::upstream))]
fn read_upstream(alloc: Global, text: &Text) -> Result<Address, WordsFault>
    ensures { Gives WordsFault.NoMemory result (upstream text.now) }
{
    let address = read_one(alloc, text)?;
    if address.host.len() == 0 {
        return Err(WordsFault::Unknown);
    }
    Ok(address)
}

// The addresses after each `--to`.
fn read_each(alloc: Global, pairs: &[Text]) -> Result<List<Address>, WordsFault>
    ensures { Gives WordsFault.NoMemory result (to_each pairs.now) }
{
    match pairs {
        [] => Ok(List::new(alloc)),
        [option, text, others @ ..] if option.equals("--to") => {
            let first = read_upstream(alloc, text)?;
            let mut found = read_each(alloc, others)?;
            found.insert(0, first)?;
            Ok(found)
        }
        _ => Err(WordsFault::Unknown),
    }
}

fn read_upstreams(alloc: Global, pairs: &[Text]) -> Result<List<Address>, WordsFault>
    ensures upstreams { Gives WordsFault.NoMemory result (upstreams pairs.now) }
    ensures some { IfOk result (λ found. 0 < length found) }
    ensures few { IfOk result (λ found. length found ≤ MAX_UPSTREAMS) }
{
    if pairs.len() == 0 || pairs.len() > 2 * MAX_UPSTREAMS {
        return Err(WordsFault::Unknown);
    }
    let found = read_each(alloc, pairs)?;
    if !are_distinct(found.as_slice()) {
        return Err(WordsFault::Unknown);
    }
    Ok(found)
}

fn is_among(address: &Address, others: &[Address]) -> bool
    ensures { result ≡ list_any (is_address address.now) others.now }
{
    others.iter().any(|other| address.host.equals(other.host.as_str())
        && address.port == other.port)
}

fn are_distinct(all: &[Address]) -> bool
    ensures { result ≡ are_distinct all.now }
{
    match all {
        [] => true,
        [first, others @ ..] => !is_among(first, others) && are_distinct(others),
    }
}
