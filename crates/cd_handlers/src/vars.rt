ghost use Rattle.std.specs.Prelude.{◌≡◌, ◌++◌, ◌∷◌, [], None, IfOk};
ghost use Rattle.cd_text.specs.Gives.{Gives};
ghost use Rattle.cd_tree.specs.Tree.{number_text};
ghost use Rattle.cd_module.specs.declared.fault.LoadFault.{LoadFault};
ghost use Rattle.cd_handlers.specs.Done.{effect_of, left_by};
ghost use Rattle.cd_handlers.specs.Vars.{variables, setting_text, setting, vars, truth_text, variables_set};

use crate::failing::unable;
use crate::filling::text_filled;
use crate::outcome::Done;
use cd_fill::{Scene, Variable};
use cd_module::{LoadFault, LoadKind, Named, Settings, object_by_name};
use cd_text::{List, NoMemory, Octets, Text};
use cd_tree::{Num, Place, Tree};
use std::alloc::Global;

/// `vars`: variables that are set for what follows (Caddy, JSON Config Structure, http.handlers.vars).
#[derive(Debug, Drop)]
pub struct Vars {
    /// The variables, by rising name.
    pub settings: List<Setting>,
}

/// A variable that is set.
#[derive(Debug, Drop)]
pub struct Setting {
    pub name: Text,
    /// The text, which is filled for each request. A number or a truth value is kept as its JSON text, where nothing is to be
    /// filled.
    pub text: Text,
}

fn number_text(alloc: Global, number: &Num) -> Result<Text, NoMemory>
    ensures { IfOk result (λ text. text ≡ number_text number.now) }
{
    let size = number.size;
    let text = if number.negative {
        format!(in alloc; "-{size}")?
    } else {
        format!(in alloc; "{size}")?
    };
    Ok(Text::from_string(text))
}

fn truth_text(truth: bool) -> &'static str
    ensures { result.now ≡ truth_text truth }
{
    if truth { "true" } else { "false" }
}

fn read_text(alloc: Global, tree: &Tree, at: &Place<'_>) -> Result<Text, LoadFault>
    ensures { Gives LoadFault.NoMemory result (setting_text tree.now at.now) }
{
    match tree {
        Tree::Text(text) => Ok(text.copy(alloc)?),
        Tree::Num(number) => Ok(number_text(alloc, number)?),
        Tree::Bool(truth) => Ok(Text::from_str(alloc, truth_text(*truth))?),
        _ => Err(LoadFault::at(alloc, LoadKind::WrongKind, at)),
    }
}

impl Named for Setting {
    ghost named = { setting };

    fn read_named(
        alloc: Global,
        name: &Text,
        tree: &Tree,
        at: &Place<'_>,
    ) -> Result<Setting, LoadFault> {
        let text = read_text(alloc, tree, at)?;
        let name = name.copy(alloc)?;
        Ok(Setting { name, text })
    }
}

// The settings without the name of the handler, which is a text too.
fn variables(settings: List<Setting>) -> List<Setting>
    ensures { result ≡ variables settings }
{
    let mut kept = settings.into_vec();
    kept.retain(|setting| !setting.name.equals("handler"));
    List::from_vec(kept)
}

impl Settings for Vars {
    ghost reader = { vars };

    #[tactic(auto, unfolding(crate::specs::Vars::vars))]
    fn read(alloc: Global, tree: &Tree, at: &Place<'_>) -> Result<Vars, LoadFault> {
        let settings = object_by_name::<Setting>(alloc, tree, at)?;
        Ok(Vars {
            settings: variables(settings),
        })
    }
}

fn add_variable(
    alloc: Global,
    name: &Text,
    value: Octets,
    variables: &mut List<Variable>,
) -> Result<(), NoMemory>
    ensures { IfOk result (λ _. variables.new ≡ variables.old ++ record { name = name.now; value = value } ∷ []) }
{
    let name = name.copy(alloc)?;
    variables.push(Variable { name, value })
}

/// Sets one variable after another. Each text is filled in the scene that the ones before left.
#[tactic(auto, unfolding(crate::specs::Vars::variables_set))]
pub(crate) fn set_variables<'r>(
    alloc: Global,
    settings: &Vars,
    scene: &mut Scene<'_>,
) -> Result<Done<'r>, NoMemory>
    ensures effect { IfOk result (λ done. effect_of done scene.new ≡ variables_set settings.now.settings scene.old) }
    ensures changes { IfOk result (λ done. left_by done ≡ None) }
{
    for setting in settings.settings.as_slice() {
        match text_filled(alloc, &setting.text, scene) {
            Ok(value) => add_variable(alloc, &setting.name, value, &mut scene.variables)?,
            Err(fault) => return unable(alloc, fault),
        }
    }
    Ok(Done::Goes)
}
