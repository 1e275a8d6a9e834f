//! The words of places that many modules share.
ghost use Rattle.std.specs.Prelude.{◌≡◌, codes, IfOk};
ghost use Rattle.cd_tree.specs.Path.{◌▸◌};

use cd_text::NoMemory;
use cd_tree::{Base, Place, SharedText};
use std::alloc::Global;

/// The words between a server and its modules, made once for all of these.
#[derive(Drop)]
pub struct Words {
    matching: SharedText,
    handle: SharedText,
    routes: SharedText,
    ghost matching_word: { matching ≡ codes "match" },
    ghost handle_word: { handle ≡ codes "handle" },
    ghost routes_word: { routes ≡ codes "routes" },
}

impl Words {
    pub fn new(alloc: Global) -> Result<Words, NoMemory> {
        let matching = SharedText::from_str(alloc, "match")?;
        let handle = SharedText::from_str(alloc, "handle")?;
        let routes = SharedText::from_str(alloc, "routes")?;
        Ok(Words {
            matching,
            handle,
            routes,
        })
    }

    /// The member that has the sets of a route.
    pub fn matching(&self) -> Result<SharedText, NoMemory>
        ensures { IfOk result (λ word. word ≡ codes "match") }
    {
        self.matching.share()
    }

    /// The member that has the steps of a route.
    pub fn handle(&self) -> Result<SharedText, NoMemory>
        ensures { IfOk result (λ word. word ≡ codes "handle") }
    {
        self.handle.share()
    }

    /// The place of the routes of a value, for the spots of their modules.
    pub fn routes(&self, alloc: Global, at: &Place<'_>) -> Result<Base, NoMemory>
        ensures { IfOk result (λ base. base ≡ at.now ▸ codes "routes") }
    {
        at.named(&self.routes).to_base(alloc)
    }
}
