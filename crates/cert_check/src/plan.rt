ghost use Rattle.std.specs.Prelude.{◌≡◌, MatchOption};
ghost use Rattle.route_model.specs.Parts.{ModelParts};
ghost use Rattle.route_model.specs.declared.plan.Plan.{Plan};
ghost use Rattle.model_text.specs.PathText.{PlanFits};
ghost use Rattle.route_model.specs.Quantities.{cost_of};
ghost use Rattle.route_model.specs.Solution.{IsSolution};
ghost use Rattle.route_model.specs.Verdicts.{IsCounted, IsVerdict};
ghost use Rattle.cert_check.specs.Verdicts.{IsPlanFault};

use crate::fault::CheckKind;
use path_graph::MAX_PATHS;
use route_model::{Model, Plan, Verdict, judge};

/// What a verdict says of a claimed cost.
fn of_verdict(verdict: Verdict, cost: i64) -> Option<CheckKind>
    ensures { (m : ModelParts) (plan : Plan) → IsVerdict m plan verdict
        → MatchOption result (IsSolution m plan × (cost_of m plan ≡ cost)) (IsPlanFault m plan cost) }
{
    match verdict {
        Verdict::Fine { cost: found } => {
            if found == cost {
                None
            } else {
                Some(CheckKind::Cost)
            }
        }
        _ => Some(CheckKind::Plan),
    }
}

/// The fault of a plan that is claimed to be a solution of this cost, if it has one.
///
/// A solution has at most `MAX_PATHS` paths of each graph, so a longer plan need not be judged.
pub(crate) fn plan_fault(model: &Model, plan: &Plan, cost: i64) -> Option<CheckKind>
    requires { PlanFits plan.now }
    ensures { MatchOption result (IsSolution model.now plan.now × (cost_of model.now plan.now ≡ cost))
        (IsPlanFault model.now plan.now cost) }
{
    if plan.paths.len() > MAX_PATHS as usize * model.graphs.len() {
        return Some(CheckKind::Plan);
    }
    of_verdict(judge(model, plan), cost)
}
