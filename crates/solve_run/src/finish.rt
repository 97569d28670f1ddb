ghost use Rattle.std.specs.Prelude.{◌≡◌, ◌≤◌, [], IfOk, length, map};
ghost use Rattle.route_model.specs.Costs.{cost_above_all};
ghost use Rattle.certificate.specs.declared.limits.TheConstants.{MAX_NODES};
ghost use Rattle.made_nodes.specs.Better.{IsBetter};
ghost use Rattle.search_tree.specs.Laws.{IsWholeTree};
ghost use Rattle.search_tree.specs.Search.{IsSearch, made_in, opens_in};
ghost use Rattle.solve_run.specs.Stops.{IsBestPlan};
ghost use Rattle.solve_run.specs.Told.{EndsAs, IsToldTree, told_node};

use crate::outcome::Outcome;
use certificate::{Cert, Goal, Node};
use made_nodes::MadeNode;
use open_tree::made_nodes;
use path_graph::{List, NoMemory};
use proof_rules::valid_certificates_hold;
use route_model::{Model, Plan};
use search_tree::{Search, searches_are_walls};
use std::alloc::Global;

/// The nodes of a certificate: each without its bound, and not yet at a line.
fn told_nodes(alloc: Global, nodes: Vec<MadeNode>) -> Result<List<Node>, NoMemory>
    ensures { IfOk result (λ told. told ≡ map told_node nodes.items) }
{
    let mut told = List::new(alloc);
    for node in nodes {
        told.push(Node {
            line: 0,
            form: node.form,
        })?;
    }
    Ok(told)
}

/// A plan is least: the nodes are a proof tree against its cost.
fn optimal(
    alloc: Global,
    model: &Model,
    cost: i64,
    plan: Plan,
    nodes: List<Node>,
) -> Result<Outcome, NoMemory>
    requires plan { IsBestPlan model.now (record { cost = cost; plan = plan }) }
    requires tree { IsToldTree model.now cost nodes }
    requires few { length nodes ≤ MAX_NODES }
    ensures { IfOk result (EndsAs model.now) }
{
    let _sets = model.sets;
    valid_certificates_hold();
    let cert = Cert {
        goal: Goal::Optimal(cost),
        goal_line: 0,
        end_line: 0,
        plan: plan.copy(alloc)?,
        nodes,
    };
    Ok(Outcome::Optimal { cost, plan, cert })
}

/// There is no solution: the nodes are a proof tree against a cost above all costs.
fn infeasible(alloc: Global, model: &Model, nodes: List<Node>) -> Outcome
    requires tree { IsToldTree model.now (cost_above_all model.now) nodes }
    requires few { length nodes ≤ MAX_NODES }
    ensures { EndsAs model.now result }
{
    let _sets = model.sets;
    valid_certificates_hold();
    let plan = Plan {
        paths: List::new(alloc),
    };
    let cert = Cert {
        goal: Goal::Infeasible,
        goal_line: 0,
        end_line: 0,
        plan,
        nodes,
    };
    Outcome::Infeasible { cert }
}

/// The nodes are a proof tree against the cost to beat: the best plan is least, or without one there is no solution.
pub(crate) fn certified(
    alloc: Global,
    model: &Model,
    z: i64,
    best: Option<Plan>,
    nodes: Vec<MadeNode>,
) -> Result<Outcome, NoMemory>
    requires better { IsBetter model.now (cost_above_all model.now) best z }
    requires tree { IsWholeTree model.now z nodes.items }
    requires few { length nodes.items ≤ MAX_NODES }
    ensures { IfOk result (EndsAs model.now) }
{
    let nodes = told_nodes(alloc, nodes)?;
    match best {
        Some(plan) => optimal(alloc, model, z, plan, nodes),
        None => Ok(infeasible(alloc, model, nodes)),
    }
}

/// No place of a search is open.
pub(crate) fn finished(alloc: Global, model: &Model, search: Search) -> Result<Outcome, NoMemory>
    requires search { IsSearch model.now search }
    requires whole { opens_in search ≡ [] }
    requires few { made_in search ≤ MAX_NODES }
    ensures { IfOk result (EndsAs model.now) }
{
    searches_are_walls();
    let nodes = made_nodes(alloc, search.slots)?;
    certified(alloc, model, search.z, search.best, nodes)
}
