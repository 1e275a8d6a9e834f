//! The lines of each matcher.
ghost use Rattle.std.specs.Prelude.{◌≡◌, ◌++◌, ◌∷◌, [], ℕ, IfOk, OnOk};
ghost use Rattle.std.specs.List.{filter};
ghost use Rattle.cd_parts.specs.Lines.{is_of, lines_at};

use cd_caddyfile::TestLine;
use cd_text::NoMemory;
use std::alloc::Global;
use std::collections::BTreeMap;

/// The lines of tests by the lines of their matchers, each in their order.
pub fn by_matcher<'a>(
    alloc: Global,
    tested: &'a [TestLine],
) -> Result<BTreeMap<u32, Vec<&'a TestLine>>, NoMemory>
    ensures { IfOk result (λ found. (matcher : ℕ) → lines_at found matcher ≡ filter (is_of matcher) tested.now) }
{
    let mut found = BTreeMap::new(alloc);
    for test in tested {
        add_line(alloc, &mut found, test)?;
    }
    Ok(found)
}

fn add_line<'a>(
    alloc: Global,
    found: &mut BTreeMap<u32, Vec<&'a TestLine>>,
    test: &'a TestLine,
) -> Result<(), NoMemory>
    ensures { OnOk result ((matcher : ℕ) → lines_at found.new matcher ≡ lines_at found.old matcher ++ filter (is_of matcher) (test.now ∷ [])) }
{
    let mut lines = match found.remove(&test.matcher) {
        Some(lines) => lines,
        None => Vec::new(alloc),
    };
    lines.push(test)?;
    found.insert(test.matcher, lines)?;
    Ok(())
}
