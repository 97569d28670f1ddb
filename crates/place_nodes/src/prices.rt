//! What the labels at a place are made from.

ghost use Rattle.std.specs.Prelude.{◌≡◌, [], IfOk};
ghost use Rattle.line_text.specs.Items.{EachAfter};
ghost use Rattle.multipliers.specs.Priced.{IsPriced};
ghost use Rattle.multipliers.specs.Ranges.{AreInRange, MultFits};
ghost use Rattle.certificate.specs.CertText.{NearMay};
ghost use Rattle.certificate.specs.Sizes.{sizes_of};
ghost use Rattle.place_nodes.specs.Tasks.{IsBasis, TaskFits};

use crate::task::Task;
use made_nodes::no_multipliers;
use multipliers::priced;
use ng_sets::Near;
use path_graph::{List, NoMemory, SetBits};
use proof_check::near_of;
use rank1_cuts::Cut;
use route_model::{Mult, Priced};
use std::alloc::Global;

/// Multipliers, no cuts, the lines of near lists, what the multipliers make of the boxes of a place, and the near lists.
#[derive(Drop)]
pub(crate) struct Basis {
    pub mult: Mult,
    pub cuts: List<Cut>,
    pub lines: List<(u32, u32, SetBits)>,
    pub priced: Priced,
    pub near: Near,
}

/// What the labels at the place are made from with multipliers that are all 0, and near lists without sets.
pub(crate) fn plain_basis(alloc: Global, task: &Task) -> Result<Basis, NoMemory>
    requires { TaskFits task.now }
    ensures { IfOk result (IsBasis task.now.model.now task.now.spot.now) }
{
    let mult = no_multipliers(alloc, task.model)?;
    basis_of(alloc, task, mult, List::new(alloc))
}

/// What the labels at the place are made from; an error also where a multiplier needs a side of a row that is open.
pub(crate) fn basis_of(
    alloc: Global,
    task: &Task,
    mult: Mult,
    lines: List<(u32, u32, SetBits)>,
) -> Result<Basis, NoMemory>
    requires task { TaskFits task.now }
    requires mult { MultFits task.now.model.now mult }
    requires cuts { mult.cuts ≡ [] }
    requires near { EachAfter (NearMay (sizes_of task.now.model.now)) [] lines }
    ensures { IfOk result (IsBasis task.now.model.now task.now.spot.now) }
{
    let cuts = List::new(alloc);
    let priced = prices(alloc, task, cuts.as_slice(), &mult)?;
    let near = near_of(alloc, task.model, lines.as_slice())?;
    Ok(Basis {
        mult,
        cuts,
        lines,
        priced,
        near,
    })
}

/// The prices of multipliers; an error also where one needs a side of a row that is open.
fn prices(alloc: Global, task: &Task, cuts: &[Cut], mult: &Mult) -> Result<Priced, NoMemory>
    requires task { TaskFits task.now }
    requires none { cuts.now ≡ [] }
    requires mult { MultFits task.now.model.now mult.now }
    requires cuts { mult.now.cuts ≡ [] }
    ensures priced { IfOk result (IsPriced task.now.model.now cuts.now task.now.spot.now.boxes mult.now) }
    ensures range { IfOk result (AreInRange task.now.spot.now.boxes) }
{
    let spot = task.spot;
    match priced(alloc, task.model, &spot.boxes, cuts, mult) {
        Ok(priced) => Ok(priced),
        Err(_) => Err(NoMemory),
    }
}
