//! What whole configurations plan, and why others are refused: the modules, each with its path and the writer that
//! it opens, and then the apps, each with the addresses that it opens; each on a line.
use crate::servers::refused;
use cd_addr::write;
use cd_legal::{Plan, PlanApp, PlanModule};
use cd_module::LoadFault;
use cd_outside::Key;
use cd_rows::{Outcome, RowFault, bytes_at, only, tree_of};
use cd_standard::load;
use cd_text::{NoMemory, Octets};
use cd_tree::Tree;
use std::alloc::Global;

pub fn configuration_outcome(alloc: Global, row: &Tree) -> Result<Outcome, RowFault> {
    only(alloc, row, "configuration found refused")?;
    let text = bytes_at(alloc, row, "configuration")?;
    let tree = tree_of(alloc, text.as_slice())?;
    match load(alloc, &tree) {
        Ok(loaded) => Ok(planned(alloc, &loaded.plan)?),
        Err(LoadFault::Refused(refusal)) => refused(alloc, &refusal),
        Err(LoadFault::NoMemory) => Err(RowFault::NoMemory),
    }
}

fn planned(alloc: Global, plan: &Plan) -> Result<Outcome, NoMemory> {
    let mut out = Octets::new(alloc);
    for module in plan.modules.as_slice() {
        put_module(alloc, module, &mut out)?;
    }
    for app in plan.apps.as_slice() {
        put_app(alloc, app, &mut out)?;
    }
    Ok(Outcome {
        member: "found",
        bytes: out,
    })
}

fn put_module(alloc: Global, module: &PlanModule, out: &mut Octets) -> Result<(), NoMemory> {
    let at = module.at.to_path(alloc)?.to_text(alloc)?;
    out.append(module.name.as_str().as_bytes())?;
    out.push(b' ')?;
    out.append(at.as_str().as_bytes())?;
    put_keys(alloc, module.keys.as_slice(), out)
}

fn put_app(alloc: Global, app: &PlanApp, out: &mut Octets) -> Result<(), NoMemory> {
    out.append(app.name.as_str().as_bytes())?;
    put_keys(alloc, app.keys.as_slice(), out)
}

// The keys, and the end of the line.
fn put_keys(alloc: Global, keys: &[Key], out: &mut Octets) -> Result<(), NoMemory> {
    for key in keys {
        put_key(alloc, key, out)?;
    }
    out.push(b'\n')
}

fn put_key(alloc: Global, key: &Key, out: &mut Octets) -> Result<(), NoMemory> {
    out.push(b' ')?;
    match key {
        Key::Listen(address) => {
            let address = write(alloc, address)?;
            out.append(address.as_str().as_bytes())
        }
        Key::Writer(name) => out.append(name.as_str().as_bytes()),
    }
}
