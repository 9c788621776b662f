//! The searches for breaches of the rules.

ghost use Rattle.plans.specs.Plan.{Plan};
ghost use Rattle.laws.specs.Rules.{RulesAreSearched};

/// Each search finds what breaks its rule, nothing before it does, and where it finds nothing nobody breaks it.
pub fn rules_are_searched()
    ensures { (p : Plan) → RulesAreSearched p }
{}
