//! `adapt`: the configuration that a Caddyfile means, or its first fault.
ghost use Rattle.std.specs.Prelude.{Ok, Err};
ghost use Rattle.cd_tree.specs.Tree.{IsSound};
ghost use Rattle.cd_caddyfile.specs.Adapting.{adapted};
ghost use Rattle.cd_outside.specs.Devices.{device};
ghost use Rattle.cd_program.specs.Adapting.{Adapts};
ghost use Rattle.cd_program.specs.Endings.{IsAdapted};

use crate::config::{ConfigFault, Unloaded, read_config};
use crate::declining::decline;
use crate::output::{faulty_line, say_line, tree_line};
use crate::status::Status;
use cd_adapt::adapt;
use cd_caddyfile::{CaddyfileFault, CaddyfileKind};
use cd_outside::{Given, Sink, Source};
use cd_text::NoMemory;
use cd_tree::Tree;
use std::alloc::Global;

/// Reads a Caddyfile, and writes the configuration that it means.
pub fn adapt_file<S: Source, O: Sink>(alloc: Global, config: &mut S, out: &mut O) -> Status
    ensures { Adapts (device S.left S.faults config.old config.new) (device O.holds O.faults out.old out.new) result }
{
    match read_config(alloc, config) {
        Ok(bytes) => say_adapted(alloc, bytes.as_slice(), out),
        Err(ConfigFault::Failed) => decline(alloc, Unloaded::Failed, out),
        Err(ConfigFault::NoMemory) => Status::NoMemory,
    }
}

// Writes the configuration that these bytes mean, or says what their fault is.
fn say_adapted<O: Sink>(alloc: Global, bytes: &[u8], out: &mut O) -> Status
    ensures { IsAdapted (adapted bytes.now) (device O.holds O.faults out.old out.new) result }
{
    match adapt(alloc, bytes) {
        Ok(tree) => write_tree(alloc, &tree, out),
        Err(fault) => match fault.kind {
            CaddyfileKind::NoMemory => Status::NoMemory,
            _ => say_fault(alloc, &fault, out),
        },
    }
}

fn write_tree<O: Sink>(alloc: Global, tree: &Tree, out: &mut O) -> Status
    requires { IsSound tree.now }
    ensures { IsAdapted (Ok tree.now) (device O.holds O.faults out.old out.new) result }
{
    let Ok(line) = tree_line(alloc, tree) else {
        return Status::NoMemory;
    };
    match say_line(out, line.as_str()) {
        Given::All => Status::Done,
        Given::Failed => Status::WriteFault,
    }
}

fn say_fault<O: Sink>(alloc: Global, fault: &CaddyfileFault, out: &mut O) -> Status
    ensures { IsAdapted (Err fault.now) (device O.holds O.faults out.old out.new) result }
{
    match faulty_line(alloc, fault) {
        Ok(line) => {
            let _ = say_line(out, line.as_str());
            Status::Refused
        }
        Err(NoMemory) => Status::NoMemory,
    }
}
