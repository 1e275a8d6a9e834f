//! The steps of a block, and their routes.
ghost use Rattle.std.specs.Prelude.{◌≡◌, ◌++◌, ◌∷◌, [], codes, decimal, IfOk, OnOk};
ghost use Rattle.cd_tree.specs.declared.tree.Tree as tree;
ghost use Rattle.cd_parts.specs.Measures.{measured, list_of};
ghost use Rattle.cd_adapt.specs.Steps.{part, route_of, subroute_of, with_step, routes_by, routes_in, has_some, own_groups, no_steps};

use cd_caddyfile::Directive;
use cd_parts::{Measured, Part, list_of, measure, object_of, text_tree};
use cd_text::{List, NoMemory, Text};
use cd_tree::{SharedText, Tree};
use std::alloc::Global;

/// A directive with its matcher.
#[derive(Drop)]
pub struct Step {
    /// The set of the matcher, where there is one.
    pub matching: Option<Measured>,
    /// The handler.
    pub does: Measured,
}

/// The steps of a block that have been read, from its last line on, so the last of a list is the first in the file.
#[derive(Drop)]
pub struct Frame {
    pub vars: List<Step>,
    pub headers: List<Step>,
    pub redirs: List<Step>,
    pub rewrites: List<Step>,
    pub handles: List<Step>,
    pub responds: List<Step>,
    /// The first number of a group that no block in this one has.
    pub end: u64,
}

impl Frame {
    /// No steps.
    pub fn new(alloc: Global, end: u64) -> Frame
        ensures { result ≡ no_steps end }
    {
        Frame {
            vars: List::new(alloc),
            headers: List::new(alloc),
            redirs: List::new(alloc),
            rewrites: List::new(alloc),
            handles: List::new(alloc),
            responds: List::new(alloc),
            end,
        }
    }

    /// Adds a step before the others of its name.
    pub fn add(&mut self, directive: Directive, step: Step) -> Result<(), NoMemory>
        ensures { OnOk result (self.new ≡ with_step directive step self.old) }
    {
        match directive {
            Directive::Vars => self.vars.push(step),
            Directive::Header => self.headers.push(step),
            Directive::Redir => self.redirs.push(step),
            Directive::Rewrite => self.rewrites.push(step),
            Directive::Handle => self.handles.push(step),
            Directive::Respond => self.responds.push(step),
        }
    }

    /// How many groups the routes need themselves.
    pub fn own_groups(&self) -> u64
        ensures { result ≡ own_groups self.now }
    {
        u64::from(has_some(&self.rewrites)) + u64::from(has_some(&self.handles))
    }

    /// The routes, with the numbers of the two groups.
    pub fn into_routes(
        self,
        alloc: Global,
        rewriting: u64,
        handling: u64,
    ) -> Result<List<Measured>, NoMemory>
        ensures { IfOk result (λ made. made ≡ routes_in self rewriting handling) }
    {
        let Frame {
            vars,
            headers,
            redirs,
            rewrites,
            handles,
            responds,
            end: _,
        } = self;
        let mut routes = List::new(alloc);
        add_routes(alloc, &mut routes, None, vars)?;
        add_routes(alloc, &mut routes, None, headers)?;
        add_routes(alloc, &mut routes, None, redirs)?;
        add_routes(alloc, &mut routes, Some(rewriting), rewrites)?;
        add_routes(alloc, &mut routes, Some(handling), handles)?;
        add_routes(alloc, &mut routes, None, responds)?;
        Ok(routes)
    }
}

/// Whether there is a step.
pub fn has_some(steps: &List<Step>) -> bool
    ensures { result ≡ has_some steps.now }
{
    steps.len() != 0
}

fn add_routes(
    alloc: Global,
    routes: &mut List<Measured>,
    group: Option<u64>,
    mut steps: List<Step>,
) -> Result<(), NoMemory>
    ensures { OnOk result (routes.new ≡ routes.old ++ routes_by group steps) }
{
    'each: loop {
        match steps.pop() {
            None => return Ok(()),
            Some(step) => {
                let route = route_of(alloc, group, step)?;
                routes.push(route)?;
            }
        }
    }
}

fn route_of(alloc: Global, group: Option<u64>, step: Step) -> Result<Measured, NoMemory>
    ensures { IfOk result (λ made. made ≡ route_of group step) }
{
    let Step { matching, does } = step;
    let mut parts = List::new(alloc);
    if let Some(number) = group {
        let name = group_name(alloc, number)?;
        add_part(alloc, &mut parts, "group", name)?;
    }
    let handlers = list_with(alloc, does)?;
    add_part(alloc, &mut parts, "handle", handlers)?;
    if let Some(set) = matching {
        let sets = list_with(alloc, set)?;
        add_part(alloc, &mut parts, "match", sets)?;
    }
    object_of(alloc, parts)
}

fn group_name(alloc: Global, number: u64) -> Result<Measured, NoMemory>
    ensures { IfOk result (λ made. made ≡ measured (tree.Text (codes "group" ++ decimal number))) }
{
    let name = Text::from_string(format!(in alloc; "group{number}")?);
    Ok(measure(Tree::Text(SharedText::new(alloc, name)?)))
}

/// A list of one tree.
pub fn list_with(alloc: Global, item: Measured) -> Result<Measured, NoMemory>
    ensures { IfOk result (λ made. made ≡ list_of (item ∷ [])) }
{
    let mut items = List::new(alloc);
    items.push(item)?;
    list_of(alloc, items)
}

/// Adds a member.
pub fn add_part(
    alloc: Global,
    parts: &mut List<Part>,
    key: &str,
    value: Measured,
) -> Result<(), NoMemory>
    ensures { OnOk result (parts.new ≡ parts.old ++ part key.now value ∷ []) }
{
    let key = Text::from_str(alloc, key)?;
    parts.push(Part { key, value })
}

/// The handler that does these routes.
pub fn subroute_of(alloc: Global, routes: List<Measured>) -> Result<Measured, NoMemory>
    ensures { IfOk result (λ made. made ≡ subroute_of routes) }
{
    let name = measure(text_tree(alloc, "subroute")?);
    let routes = list_of(alloc, routes)?;
    let mut parts = List::new(alloc);
    add_part(alloc, &mut parts, "handler", name)?;
    add_part(alloc, &mut parts, "routes", routes)?;
    object_of(alloc, parts)
}
