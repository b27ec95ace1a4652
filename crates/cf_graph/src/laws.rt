//! Laws of references, which hold of every list of them.
ghost use Rattle.std.specs.Prelude.{ℕ, List};
ghost use Rattle.cf_graph.specs.Edges.{Reference};
ghost use Rattle.cf_graph.specs.Operations.{Operation, CanRun, IsBalanced};
ghost use Rattle.cf_graph.specs.Flows.{Flow, IsThere, IsBalancedFlow, IsCounted};

/// The law of counts, for every weight: where operations can be done, what they leave and what they lose is what was
/// there and what they win; and so it is of a flow that takes no more of a reference than is there.
pub fn counts_of_flows()
    ensures operations { (weight : Reference → ℕ) (ops : List Operation) (es : List Reference) →
        CanRun ops es → IsBalanced weight ops es }
    ensures flows { (weight : Reference → ℕ) (flow : Flow) (es : List Reference) →
        IsThere flow es → IsBalancedFlow weight flow es }
{}

/// A flow changes the number of references to an object by what it adds and what it takes away alone: it raises or
/// lowers it, or leaves it, whatever moves.
pub fn references_of_flows()
    ensures { (o : ℕ) (flow : Flow) (es : List Reference) → IsThere flow es → IsCounted o flow es }
{}
