//! How many references lead to an object.
ghost use Rattle.std.specs.Prelude.{◌≡◌, count_by};
ghost use Rattle.cf_graph.specs.Degrees.{leads_to, owns};

use crate::edge::{Edge, Owner};
use cf_ids::ObjId;

/// How many edges lead to `o`.
pub fn in_degree(edges: &[Edge], o: ObjId) -> usize
    ensures count { result ≡ count_by (leads_to o) edges.now }
{
    edges.iter().filter(|e| e.object == o).count()
}

/// How many edges lead to `o` from a thread or a parcel.
pub fn owners(edges: &[Edge], o: ObjId) -> usize
    ensures count { result ≡ count_by (owns o) edges.now }
{
    edges.iter().filter(|e| is_owned(e, o)).count()
}

fn is_owned(edge: &Edge, o: ObjId) -> bool
    ensures owned { result ≡ owns o edge.now }
{
    match edge.owner {
        Owner::Thread(_) | Owner::Parcel(_) => edge.object == o,
        Owner::Slot(_) | Owner::Mode(_, _) | Owner::Common(_) => false,
    }
}
