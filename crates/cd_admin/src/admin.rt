//! The settings of the admin API.
ghost use Rattle.std.specs.Prelude.{◌≡◌, Ok, IfOk};
ghost use Rattle.std.specs.Result.{IsOk};
ghost use Rattle.cd_text.specs.Gives.{Gives};
ghost use Rattle.cd_admin.specs.Admin.{admin, admin_config, admin_in, admin_listen, admin_of, admin_or_usual, given_or_usual, kept_unless_denied, one_address, persists, usual_address, usual_admin};

use cd_addr::{AddrFault, read};
use cd_module::{LoadFault, LoadKind, Settings, fields_of, optional};
use cd_outside::Address;
use cd_text::{List, NoMemory, Text};
use cd_tree::{Fields, Place, Tree};
use std::alloc::Global;

/// The settings of the admin API (Caddy, JSON Config Structure, `admin`).
#[derive(Debug, Drop)]
pub struct Admin {
    /// Whether there is none.
    pub disabled: bool,
    /// Where it listens: `localhost:2019` unless another address is given.
    pub listen: Address,
    /// Whether a request is refused whose Host or Origin is not expected.
    pub enforce_origin: bool,
    /// Which hosts and origins are expected, as they are written: that of `listen`, unless they are given.
    pub origins: Option<List<Text>>,
    /// Whether the configuration is kept, so that it outlasts the program: unless `persist` of `config` is false.
    pub persist: bool,
}

// The one address that a text writes.
#[derive(Debug, Drop)]
struct AdminListen {
    address: Address,
}

// `config`: whether configurations are kept.
#[derive(Clone, Copy, Debug)]
struct AdminConfig {
    persist: bool,
}

impl Settings for AdminListen {
    ghost reader = { admin_listen };

    #[tactic(auto, unfolding(crate::specs::Admin::admin_listen))]
    fn read(alloc: Global, tree: &Tree, at: &Place<'_>) -> Result<AdminListen, LoadFault> {
        let text = Text::read(alloc, tree, at)?;
        match read(alloc, &text) {
            Ok(addresses) => one_address(alloc, addresses.as_slice(), at),
            Err(AddrFault::NoMemory) => Err(LoadFault::NoMemory),
            Err(AddrFault::BadNetwork | AddrFault::BadPort | AddrFault::BadRange) => {
                Err(LoadFault::at(alloc, LoadKind::BadAddress, at))
            }
        }
    }
}

fn one_address(
    alloc: Global,
    addresses: &[Address],
    at: &Place<'_>,
) -> Result<AdminListen, LoadFault>
    ensures { Gives LoadFault.NoMemory result (one_address (Ok addresses.now) at.now) }
{
    let [address] = addresses else {
        return Err(LoadFault::at(alloc, LoadKind::BadAddress, at));
    };
    Ok(AdminListen {
        address: address.copy(alloc)?,
    })
}

impl Settings for AdminConfig {
    ghost reader = { admin_config };

    #[tactic(auto, unfolding(crate::specs::Admin::admin_config))]
    fn read(alloc: Global, tree: &Tree, at: &Place<'_>) -> Result<AdminConfig, LoadFault> {
        let fields = fields_of(alloc, tree, at, "persist")?;
        let persist = optional::<bool>(alloc, &fields, at, "persist")?;
        Ok(AdminConfig {
            persist: persist.unwrap_or(true),
        })
    }
}

impl Admin {
    /// The admin API where nothing is said of it.
    pub fn usual(alloc: Global) -> Result<Admin, NoMemory>
        ensures { IfOk result (λ made. made ≡ usual_admin) }
    {
        Ok(Admin {
            disabled: false,
            listen: usual_address(alloc)?,
            enforce_origin: false,
            origins: None,
            persist: true,
        })
    }

    /// What was said of the admin API, or else what is usual.
    pub fn or_usual(alloc: Global, given: Option<Admin>) -> Result<Admin, NoMemory>
        ensures { IfOk result (λ made. made ≡ admin_or_usual given) }
    {
        match given {
            Some(admin) => Ok(admin),
            None => Admin::usual(alloc),
        }
    }

    /// The settings of the admin API in a configuration that has no fault there.
    pub(crate) fn of_tree(alloc: Global, tree: &Tree) -> Result<Admin, NoMemory>
        requires { IsOk (admin_in tree.now) }
        ensures { IfOk result (λ made. made ≡ admin_of tree.now) }
    {
        match admin_in(alloc, tree) {
            Ok(given) => Admin::or_usual(alloc, given),
            Err(LoadFault::NoMemory) => Err(NoMemory),
            Err(LoadFault::Refused(_)) => unreachable!(),
        }
    }
}

/// Whether a configuration, which has no fault in what it says of the admin API, is kept, so that it outlasts the program: unless
/// `admin.config.persist` is false (Caddy, JSON Config Structure, `admin`).
pub fn persists(alloc: Global, tree: &Tree) -> Result<bool, NoMemory>
    requires { IsOk (admin_in tree.now) }
    ensures { IfOk result (λ kept. kept ≡ persists tree.now) }
{
    let admin = Admin::of_tree(alloc, tree)?;
    Ok(admin.persist)
}

/// What a configuration says of the admin API. Its other members are not looked at.
#[tactic(auto, unfolding(crate::specs::Admin::admin_in))]
fn admin_in(alloc: Global, tree: &Tree) -> Result<Option<Admin>, LoadFault>
    ensures { Gives LoadFault.NoMemory result (admin_in tree.now) }
{
    match tree {
        Tree::Object(members) => {
            optional::<Admin>(alloc, &Fields::of_any(members), &Place::top(), "admin")
        }
        _ => Ok(None),
    }
}

fn usual_address(alloc: Global) -> Result<Address, NoMemory>
    ensures { IfOk result (λ made. made ≡ usual_address) }
{
    Ok(Address {
        host: Text::from_str(alloc, "localhost")?,
        port: 2019,
    })
}

fn kept_unless_denied(config: Option<AdminConfig>) -> bool
    ensures { result ≡ kept_unless_denied config }
{
    match config {
        Some(config) => config.persist,
        None => true,
    }
}

fn address_or_usual(alloc: Global, given: Option<AdminListen>) -> Result<Address, NoMemory>
    ensures { IfOk result (λ made. made ≡ given_or_usual given) }
{
    match given {
        Some(listen) => {
            let AdminListen { address } = listen;
            Ok(address)
        }
        None => usual_address(alloc),
    }
}

impl Settings for Admin {
    ghost reader = { admin };

    #[tactic(auto, unfolding(crate::specs::Admin::admin))]
    fn read(alloc: Global, tree: &Tree, at: &Place<'_>) -> Result<Admin, LoadFault> {
        let fields = fields_of(
            alloc,
            tree,
            at,
            "disabled listen enforce_origin origins config",
        )?;
        let disabled = optional::<bool>(alloc, &fields, at, "disabled")?;
        let listen = optional::<AdminListen>(alloc, &fields, at, "listen")?;
        let enforced = optional::<bool>(alloc, &fields, at, "enforce_origin")?;
        let origins = optional::<List<Text>>(alloc, &fields, at, "origins")?;
        let config = optional::<AdminConfig>(alloc, &fields, at, "config")?;
        Ok(Admin {
            disabled: disabled.unwrap_or(false),
            listen: address_or_usual(alloc, listen)?,
            enforce_origin: enforced.unwrap_or(false),
            origins,
            persist: kept_unless_denied(config),
        })
    }
}
