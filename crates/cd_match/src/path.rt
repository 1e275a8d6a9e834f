//! The matcher `path`.
ghost use Rattle.std.specs.Prelude.{◌≡◌};
ghost use Rattle.std.specs.List.{list_any};
ghost use Rattle.cd_match.specs.Path.{is_star, path_pattern, path_matcher, path_holds};

use cd_fill::Scene;
use cd_module::{LoadFault, LoadKind, Pattern, Settings};
use cd_text::List;
use cd_tree::{Place, Tree};
use std::alloc::Global;

/// A pattern of a path, in which a `*` stands at its ends alone.
#[derive(Debug, Drop)]
pub struct PathPattern {
    pub pattern: Pattern,
}

/// Holds where the path, as handlers have left it, fits one of the patterns in any case. Without patterns it never holds.
#[derive(Debug, Drop)]
pub struct PathMatcher {
    pub patterns: List<PathPattern>,
}

fn has_star(text: &[u8]) -> bool
    ensures { result ≡ list_any is_star text.now }
{
    text.iter().any(|byte| *byte == b'*')
}

impl Settings for PathPattern {
    ghost reader = { path_pattern };

    #[tactic(auto, unfolding(crate::specs::Path::path_pattern))]
    fn read(alloc: Global, tree: &Tree, at: &Place<'_>) -> Result<PathPattern, LoadFault> {
        let pattern = Pattern::read(alloc, tree, at)?;
        if has_star(pattern.literal()) {
            return Err(LoadFault::at(alloc, LoadKind::BadValue, at));
        }
        Ok(PathPattern { pattern })
    }
}

impl Settings for PathMatcher {
    ghost reader = { path_matcher };

    #[tactic(auto, unfolding(crate::specs::Path::path_matcher))]
    fn read(alloc: Global, tree: &Tree, at: &Place<'_>) -> Result<PathMatcher, LoadFault> {
        let patterns = List::<PathPattern>::read(alloc, tree, at)?;
        Ok(PathMatcher { patterns })
    }
}

impl PathMatcher {
    /// Whether it holds. It takes no memory.
    pub fn holds(&self, scene: &Scene<'_>) -> bool
        ensures { result ≡ path_holds self.now scene.now }
    {
        let path = scene.current.path.as_slice();
        self.patterns
            .as_slice()
            .iter()
            .any(|wanted| wanted.pattern.fits_in_any_case(path))
    }
}
