//! Which configuration a Caddyfile is.
ghost use Rattle.std.specs.Prelude.{◌≡◌, IfOk};
ghost use Rattle.cd_text.specs.Gives.{Gives};
ghost use Rattle.cd_tree.specs.Tree.{IsSound};
ghost use Rattle.cd_tree.specs.declared.tree.Tree.{Tree as SomeTree};
ghost use Rattle.cd_caddyfile.specs.Adapting.{adapted, within_limits, out_of_memory};
ghost use Rattle.cd_parts.specs.Measures.{measured};

use crate::serving::shape_of;
use crate::splitting::sites_of;
use cd_caddyfile::{CaddyfileFault, CaddyfileKind, read_matchers};
use cd_parts::{Measured, table_of};
use cd_tree::{MAX_DEPTH, MAX_TEXT_BYTES, Tree};
use std::alloc::Global;

/// The configuration that a Caddyfile means, or its first fault: `TooLong` at line 0, that of its first line that has one, or
/// `TooLong` or `TooDeep` at line 0, where its tree is beyond the limits of trees.
pub fn adapt(alloc: Global, bytes: &[u8]) -> Result<Tree, CaddyfileFault>
    ensures exact { Gives out_of_memory result (adapted bytes.now) }
    ensures sound { IfOk result IsSound }
{
    let matchers = read_matchers(alloc, bytes)?;
    let table = table_of(alloc, &matchers)?;
    let sites = sites_of(alloc, bytes)?;
    let made = shape_of(alloc, &table, sites.as_slice())?;
    within_limits(made)
}

fn within_limits(made: Measured) -> Result<Tree, CaddyfileFault>
    ensures { (t : SomeTree) → made ≡ measured t → Gives out_of_memory result (within_limits t) }
{
    if made.length > MAX_TEXT_BYTES {
        return Err(CaddyfileFault {
            kind: CaddyfileKind::TooLong,
            line: 0,
        });
    }
    if made.depth > MAX_DEPTH {
        return Err(CaddyfileFault {
            kind: CaddyfileKind::TooDeep,
            line: 0,
        });
    }
    Ok(made.tree)
}
