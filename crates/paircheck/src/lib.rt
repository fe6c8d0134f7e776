// The check of a pairing: shapes, empty tables, and the rows of both pair tables, but for the paths between paired nodes.
#![tactic(auto)]

ghost use Rattle.std.specs.Prelude.{◌≡◌, ◌≤◌, length};
ghost use Rattle.model.specs.Limits.{max_nodes};
ghost use Rattle.model.specs.Rows.{node_rows, edge_rows};
ghost use Rattle.model.specs.Graph.{graph_of};
ghost use Rattle.model.specs.Taken.{TakenTables};
ghost use Rattle.model.specs.Calls.{answer};
ghost use Rattle.model.specs.Answers.{checked_answer};
ghost use Rattle.pairing.specs.Pairs.{tables_of};
ghost use Rattle.paircheck.specs.Classes.{Classifiable, classes_over, kind_class, kinds_over, entered_class, entered_by, EntersWithin};
ghost use Rattle.paircheck.specs.Pairing.{check_some, check_sizes, check_classified, check_pairing_rows};

use model::{
    BLOCK, EDGE_WIDTH, LAST_AT, LEAF_PAIRS, MAX_NODES, MAX_PAIRS, NODE_WIDTH, PAIR_WIDTH,
    ROOT_PAIRS, Reason,
};
use pairing::check_pairs;
use tables::{check_shape, edge_to};

// Classes of nodes. Numbers and no enum: `classify` and `check_pairs` are promised for any numbers as classes.
const OTHER: usize = 0;

const ROOT: usize = 1;

const LEAF: usize = 2;

// The only `at` of a root row.
const ROOT_AT: i64 = 0;

// The class of a node of this kind that no edge enters.
#[tactic(auto, using(tables::proofs::Cells::cells), unfolding(crate::specs::Classes::kind_class))]
fn kind_class(kind: i64) -> usize
    ensures { result ≡ kind_class kind }
{
    if kind == BLOCK { LEAF } else { ROOT }
}

// The class of a node that an edge enters, which had this class.
#[tactic(auto, unfolding(crate::specs::Classes::entered_class))]
fn entered_class(class: usize) -> usize
    ensures { result ≡ entered_class class }
{
    if class == ROOT { OTHER } else { class }
}

// Sets class[v], for each node v, to the class of a node of its kind that no edge enters.
fn classify_kinds(nodes: &[i64], class: &mut [usize])
    requires { length (node_rows nodes.now) ≤ length class.old }
    ensures { class.new ≡ kinds_over nodes.now class.old }
{
    for v in 0..nodes.len() / NODE_WIDTH {
        class[v] = kind_class(nodes[NODE_WIDTH * v]);
    }
}

// Sets class[v] to OTHER for each root v that an edge enters.
fn enter_edges(edges: &[i64], class: &mut [usize])
    requires { EntersWithin edges.now class.old }
    ensures { class.new ≡ entered_by (edge_rows edges.now) class.old }
{
    for e in 0..edges.len() / EDGE_WIDTH {
        let to = edge_to(edges, e);
        class[to] = entered_class(class[to]);
    }
}

// Sets class[v], for each node v, to ROOT, LEAF or OTHER. One pass over the nodes and one over the edges.
pub fn classify(nodes: &[i64], edges: &[i64], class: &mut [usize])
    requires { Classifiable nodes.now edges.now class.old }
    ensures { class.new ≡ classes_over (graph_of nodes.now edges.now) class.old }
{
    classify_kinds(nodes, class);
    enter_edges(edges, class);
}

// Refusal 9: the pair table has no row.
#[tactic(auto, using(tables::proofs::Cells::cells, crate::proofs::Pairing::none_rows), unfolding(model::specs::Calls::answer, model::specs::Checks::when))]
fn check_some(pairs: &[i64], table: usize) -> Result<(), Reason>
    ensures { checked_answer result ≡ answer (check_some table pairs.now) tt }
{
    if pairs.len() < PAIR_WIDTH {
        return Err(Reason::NoPair { table });
    }
    Ok(())
}

// Refusals 1 and 9 of the two pair tables.
fn check_sizes(root_pairs: &[i64], leaf_pairs: &[i64]) -> Result<(), Reason>
    ensures { checked_answer result ≡ answer (check_sizes root_pairs.now leaf_pairs.now) tt }
{
    check_shape(root_pairs, PAIR_WIDTH, MAX_PAIRS, ROOT_PAIRS)?;
    check_shape(leaf_pairs, PAIR_WIDTH, MAX_PAIRS, LEAF_PAIRS)?;
    check_some(root_pairs, ROOT_PAIRS)?;
    check_some(leaf_pairs, LEAF_PAIRS)
}

// Refusals 7, 16 and 8 of the two pair tables, by the classes of all nodes.
fn check_classified(
    root_pairs: &[i64],
    leaf_pairs: &[i64],
    spec_class: &[usize],
    impl_class: &[usize],
) -> Result<(), Reason>
    requires { (length spec_class.now ≤ max_nodes) × (length impl_class.now ≤ max_nodes) }
    ensures { checked_answer result
        ≡ answer (check_classified spec_class.now impl_class.now root_pairs.now leaf_pairs.now) tt }
{
    check_pairs(
        root_pairs, ROOT_PAIRS, spec_class, impl_class, ROOT, ROOT_AT, true,
    )?;
    check_pairs(
        leaf_pairs, LEAF_PAIRS, spec_class, impl_class, LEAF, LAST_AT, false,
    )
}

// Refusals 1, 9, 7, 16 and 8 of the pairing of two taken graphs.
pub fn check_pairing(
    spec_nodes: &[i64],
    spec_edges: &[i64],
    impl_nodes: &[i64],
    impl_edges: &[i64],
    root_pairs: &[i64],
    leaf_pairs: &[i64],
) -> Result<(), Reason>
    requires { TakenTables spec_nodes.now spec_edges.now × TakenTables impl_nodes.now impl_edges.now }
    ensures { checked_answer result
        ≡ answer (check_pairing_rows (tables_of spec_nodes.now spec_edges.now impl_nodes.now impl_edges.now root_pairs.now leaf_pairs.now)) tt }
{
    check_sizes(root_pairs, leaf_pairs)?;
    let mut spec_class = [OTHER; MAX_NODES];
    let mut impl_class = [OTHER; MAX_NODES];
    classify(spec_nodes, spec_edges, &mut spec_class);
    classify(impl_nodes, impl_edges, &mut impl_class);
    check_classified(
        root_pairs,
        leaf_pairs,
        &spec_class[..spec_nodes.len() / NODE_WIDTH],
        &impl_class[..impl_nodes.len() / NODE_WIDTH],
    )
}
