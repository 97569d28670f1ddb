ghost use Rattle.route_tasks.specs.Routes.{RoutesHaveSolutionsLaw};

/// Each route plan of a task has a solution of the task's model with equal cost. That the routes of each solution are a
/// route plan of equal cost is told by `routes_of`.
pub fn routes_have_solutions()
    ensures { RoutesHaveSolutionsLaw }
{}
