// Faults in the node tables and in a pairing: the refusals that `compare` and the check of one graph give are held against the first condition that
// holds, looked for row by row.
use crate::comparisons::compare_maps;
use crate::tally::{Counted, Counts};
use generator::draws::Draws;
use generator::faults::{Cause, Refusal, SPEC_NODES};
use generator::graphs::Graph;
use generator::rows::Map;
use model::Reason;

// The refusal of a reason, if it is one that is tried here.
fn refusal_of(reason: Reason) -> Option<Refusal> {
    let (cause, table, row) = match reason {
        Reason::Node { table, row } => (Cause::Node, table, row),
        Reason::NotRootOrLeaf { table, row } => (Cause::NotRootOrLeaf, table, row),
        Reason::PairedBefore { table, row } => (Cause::PairedBefore, table, row),
        Reason::At { table, row } => (Cause::At, table, row),
        _ => return None,
    };
    Some(Refusal { cause, table, row })
}

// Whether a call gives this refusal, or is answered where there is none.
fn is_refused_so<T: Drop>(answer: Result<T, Reason>, refusal: Option<Refusal>) -> bool {
    match answer {
        Ok(_) => refusal.is_none(),
        Err(reason) => refusal.is_some() && refusal_of(reason) == refusal,
    }
}

// Tries the refusal of one graph, whose node table may have a fault.
fn try_graph(graph: &Graph, counts: &mut Counts) {
    let refusal = graph.map.node_refusal(SPEC_NODES);
    let checked = depth::check_graph(graph.tables.nodes(), graph.tables.edges());
    counts.count_if(Counted::RefusedGraphs, refusal.is_some());
    counts.expect(is_refused_so(checked, refusal), "refusal");
}

// Tries the refusal of two maps with faults.
fn try_refusal(spec: &Graph, other: &Graph, counts: &mut Counts) {
    let refusal = other.map.first_refusal(&spec.map);
    if let Some(Refusal { cause, .. }) = refusal {
        counts.count(match cause {
            Cause::Node => Counted::RefusedAccess,
            Cause::NotRootOrLeaf => Counted::RefusedNodes,
            Cause::At => Counted::RefusedAt,
            Cause::PairedBefore => Counted::RefusedTwice,
        });
    }
    let compared = compare_maps(spec, other);
    counts.expect(is_refused_so(compared, refusal), "refusal");
}

// Puts faults into the node tables and the pairing of two maps, and tries the refusals.
pub(crate) fn try_faults(spec: Map, other: Map, counts: &mut Counts, draws: &mut Draws) {
    let mut spec = spec;
    let mut other = other;
    other.put_faults(draws);
    spec.put_unknown(draws);
    other.put_unknown(draws);
    let spec = Graph::of(spec);
    let other = Graph::of(other);
    try_graph(&spec, counts);
    try_graph(&other, counts);
    try_refusal(&spec, &other, counts);
}
