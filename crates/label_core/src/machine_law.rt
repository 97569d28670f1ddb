ghost use Rattle.label_core.specs.Runs.{KeepsRule};

use label_space::Space;

/// Every run of legal events from the opening state keeps the rule, and where no kept entry is
/// fresh or claimed at its end, its kept labels are closed and represent every list of choices.
pub fn every_run_keeps_the_rule<S: Space>(space: &S)
    ensures { KeepsRule (S.rules space.now) }
{
    let _cells = space.cells();
}
