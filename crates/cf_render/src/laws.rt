//! Laws of journals and of edges.
ghost use Rattle.std.specs.Prelude.{◌≡◌, Bool, List, count_by};
ghost use Rattle.cf_syntax.specs.declared.script.Script.{Script};
ghost use Rattle.cf_model.specs.declared.entry.Entry.{Entry};
ghost use Rattle.cf_model.specs.Journals.{IsLegal};
ghost use Rattle.cf_graph.specs.declared.edge.Edge.{Edge};
ghost use Rattle.cf_graph.specs.Edges.{Reference, edges_of};
ghost use Rattle.cf_render.specs.Ends.{AreOf};
ghost use Rattle.cf_render.specs.Made.{ObjectsTold};

/// After every legal journal of every script the objects of the state are those that the entries tell: as many, of
/// these classes in order, each finalised as often as entries finalise it.
pub fn objects_are_told()
    ensures { (s : Script) (es : List Entry) → IsLegal s es → ObjectsTold s es }
{}

/// Edges of which every test is passed by as many as of those of references are those of the references, in any order.
pub fn edges_in_any_order()
    ensures { (es : List Edge) (rs : List Reference)
        → ((p : Edge → Bool) → count_by p es ≡ count_by p (edges_of rs)) → AreOf es rs }
{}
