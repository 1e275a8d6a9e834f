//! Sites and matchers that are there twice, and matchers that are not there. What was met is kept in order, so that of many no
//! two are compared that need not be.
ghost use Rattle.std.specs.Prelude.{◌≡◌, [], IfOk, option_map};
ghost use Rattle.cd_caddyfile.specs.Faults.{sooner, first_fault, repeated_sites, repeated_matchers, unknown_matchers};
ghost use Rattle.cd_caddyfile.specs.Keys.{host_in};

use crate::address::Address;
use crate::fault::{CaddyfileFault, CaddyfileKind};
use crate::named::{Located, Named};
use crate::notes::{fault_where, sooner};
use cd_text::NoMemory;
use std::alloc::Global;
use std::collections::BTreeSet;

/// The first site whose address one before has.
pub fn site_fault(alloc: Global, sites: &[Located]) -> Result<Option<CaddyfileFault>, NoMemory>
    ensures { IfOk result (λ fault. fault ≡ first_fault (repeated_sites [] sites.now)) }
{
    let mut addresses = BTreeSet::new(alloc);
    let mut fault = None;
    'each_site: for site in sites {
        let is_new = addresses.insert(site_key_of(&site.address))?;
        let here = fault_where(!is_new, site.line, CaddyfileKind::RepeatedSite);
        fault = sooner(fault, here);
    }
    Ok(fault)
}

fn site_key_of(address: &Address) -> (u16, Option<&[u8]>)
    ensures port { result.0 ≡ address.now.port }
    ensures host { host_in result.1 ≡ address.now.host }
{
    (address.port, host_of(address))
}

fn host_of(address: &Address) -> Option<&[u8]>
    ensures { host_in result ≡ address.now.host }
{
    match &address.host {
        None => None,
        Some(host) => Some(host.as_slice()),
    }
}

/// The sooner of the first matcher whose name one of its site before has, and the first name of a matcher that its site has
/// not.
pub fn matcher_fault(
    alloc: Global,
    defined: &[Named],
    used: &[Named],
) -> Result<Option<CaddyfileFault>, NoMemory>
    ensures { IfOk result (λ fault. fault ≡ sooner (first_fault (repeated_matchers [] defined.now)) (first_fault (unknown_matchers defined.now used.now))) }
{
    let mut names = BTreeSet::new(alloc);
    let mut repeated = None;
    'each_defined: for matcher in defined {
        let is_new = names.insert(key_of(matcher))?;
        let here = fault_where(!is_new, matcher.line, CaddyfileKind::RepeatedMatcher);
        repeated = sooner(repeated, here);
    }
    let mut unknown = None;
    'each_used: for matcher in used {
        let is_known = names.contains(&key_of(matcher));
        let here = fault_where(!is_known, matcher.line, CaddyfileKind::UnknownMatcher);
        unknown = sooner(unknown, here);
    }
    Ok(sooner(repeated, unknown))
}

fn key_of(matcher: &Named) -> (u32, &[u8])
    ensures site { result.0 ≡ matcher.now.site }
    ensures name { result.1.now ≡ matcher.now.name }
{
    (matcher.site, matcher.name.as_slice())
}
