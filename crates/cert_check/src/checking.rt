ghost use Rattle.std.specs.Prelude.{OnOk, IfErr, MatchResult};
ghost use Rattle.proof_rules.specs.Validity.{Holds};
ghost use Rattle.cert_rules.specs.Meaning.{claim_of};
ghost use Rattle.certificate.specs.CertFits.{CertFits};
ghost use Rattle.cert_check.specs.Verdicts.{IsAccepted, IsGoalError, IsRefusal, IsSupportedBy};

use crate::fault::{CheckError, CheckFault};
use crate::plan::plan_fault;
use crate::tree::read_tree;
use certificate::{Cert, Goal};
use route_model::{Model, box_costs};
use std::alloc::Global;

/// Reads the plan of a claim of this cost, and its tree.
fn read_optimal(alloc: Global, model: &Model, cert: &Cert, cost: i64) -> Result<(), CheckError>
    requires { CertFits model.now cert.now }
    ensures { MatchResult result (λ _. IsSupportedBy model.now cert.now (Goal.Optimal cost)) (IsGoalError model.now cert.now (Goal.Optimal cost)) }
{
    if let Some(kind) = plan_fault(model, &cert.plan, cost) {
        return Err(CheckError::Refused(CheckFault {
            line: cert.goal_line,
            kind,
        }));
    }
    read_tree(alloc, model, cost, cert.nodes.as_slice(), cert.end_line)
}

/// Reads the tree of a claim that there is no solution.
fn read_infeasible(alloc: Global, model: &Model, cert: &Cert) -> Result<(), CheckError>
    requires { CertFits model.now cert.now }
    ensures { MatchResult result (λ _. IsSupportedBy model.now cert.now Goal.Infeasible) (IsGoalError model.now cert.now Goal.Infeasible) }
{
    let (_least, above_all) = box_costs(model);
    read_tree(
        alloc,
        model,
        above_all,
        cert.nodes.as_slice(),
        cert.end_line,
    )
}

/// Reads a certificate by its goal.
fn read_goal(alloc: Global, model: &Model, cert: &Cert) -> Result<(), CheckError>
    requires { CertFits model.now cert.now }
    ensures { MatchResult result (λ _. IsSupportedBy model.now cert.now cert.now.goal) (IsGoalError model.now cert.now cert.now.goal) }
{
    match cert.goal {
        Goal::Optimal(cost) => read_optimal(alloc, model, cert, cost),
        Goal::Infeasible => read_infeasible(alloc, model, cert),
    }
}

/// Checks that a certificate is valid, or tells its first fault.
///
/// It looks at the plan, then at the nodes in order: at each node at its demands, in the order of their kinds. A valid
/// certificate proves its claim: that no solution costs less than its plan, or that there is none.
pub fn check(alloc: Global, model: &Model, cert: &Cert) -> Result<(), CheckError>
    requires { CertFits model.now cert.now }
    ensures valid { OnOk result (IsAccepted model.now cert.now) }
    ensures refused { IfErr result (IsRefusal model.now cert.now) }
    ensures holds { OnOk result (Holds model.now (claim_of cert.now)) }
{
    let _graphs = model.graphs.len();
    read_goal(alloc, model, cert)
}
