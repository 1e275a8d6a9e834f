use crate::board::Board;
use cd_legal::Stands;
use cd_module_set::ModuleSet;
use cd_outside::Fixtures;

/// A board stands for the legal histories that leave what it keeps, in which each configuration came as it was asked for, and by
/// which its fixtures were called as they were. Its fixtures have failed at least as often as a key could not be opened.
impl<M: ModuleSet, F: Fixtures> Stands for Board<M, F> {
    ghost use Rattle.cd_life.specs.Standing.{Stood};

    ghost stands = { Stood F.calls F.faults M.plan M.change };
}
