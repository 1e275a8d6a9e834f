ghost use Rattle.std.specs.Prelude.{◌≡◌};
ghost use Rattle.cd_legal.specs.declared.part.Part.TheVariants as part;
ghost use Rattle.cd_legal.specs.declared.state.Life.TheVariants.{Live};
ghost use Rattle.cd_desk.specs.Lines.{IsWhole};

use crate::line::Line;
use cd_legal::{Life, Plan};
use cd_tree::Tree;
use std::snapshot::Snapshot;

/// What the board keeps of one draft. It is not dropped, since its instances must be cleaned.
pub struct Row {
    // the number of the draft
    pub(crate) number: u64,
    pub(crate) tree: Snapshot<Tree>,
    pub(crate) plan: Snapshot<Plan>,
    pub(crate) modules: Line,
    pub(crate) apps: Line,
    pub(crate) failed: bool,
    pub(crate) life: Life,
    // whether its serial is retired
    pub(crate) retired: bool,
    ghost instances: { modules.part ≡ part.Instance },
    ghost started: { apps.part ≡ part.App },
    ghost modules_plan: { modules.plan.value ≡ plan.value },
    ghost apps_plan: { apps.plan.value ≡ plan.value },
    ghost whole: { life ≡ Live → IsWhole modules × IsWhole apps },
}
