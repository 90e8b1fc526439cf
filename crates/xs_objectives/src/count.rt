//! How many items objectives have.

ghost use Rattle.std.specs.Prelude.{◌≡◌, ◌+◌, ◌<◌, ◌^◌, length, Some};
ghost use Rattle.xs_model.specs.Accepted.{goal_items};
ghost use Rattle.xs_model.specs.Formed.{nodes, nodes_of};

use xs_model::{Body, Expr, Objective};

/// How many items an objective has: one for each list member and each coefficient, or each node of its expression.
///
/// Asks that there are fewer than 2^64.
pub fn count_goal(objective: &Objective) -> u64
    requires { goal_items (Some objective.now) < 2 ^ 64 }
    ensures { result ≡ goal_items (Some objective.now) }
{
    match &objective.body {
        Body::Value(expr) => count_nodes(expr),
        Body::Sum(list, coeffs) => list.len() as u64 + coeffs.len() as u64,
        Body::Least(list) => list.len() as u64,
        Body::Greatest(list) => list.len() as u64,
        Body::Distinct(list) => list.len() as u64,
    }
}

#[cycle(count)]
fn count_nodes(expr: &Expr) -> u64
    requires { nodes expr.now < 2 ^ 64 }
    ensures { result ≡ nodes expr.now }
{
    match expr {
        Expr::Int(_) => 1,
        Expr::Var(_) => 1,
        Expr::Node(_, operands) => 1 + count_all(operands.as_slice()),
    }
}

#[cycle(count)]
fn count_all(exprs: &[Expr]) -> u64
    requires { nodes_of exprs.now < 2 ^ 64 }
    ensures { result ≡ nodes_of exprs.now }
{
    let mut total = 0;
    for expr in exprs {
        total += count_nodes(expr);
    }
    total
}
