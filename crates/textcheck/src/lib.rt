// The text check: map file in, report out.
#![tactic(auto)]

ghost use Rattle.std.specs.Prelude.{◌≡◌, length};
ghost use Rattle.model.specs.Answers.{written_answer};
ghost use Rattle.model.specs.Calls.{full};
ghost use Rattle.model.specs.TextCheck.{check_read, text_answer};
ghost use Rattle.mapfile.specs.Given.{lent, front};
ghost use Rattle.tablecheck.specs.Outcomes.{outcome_answer, Gives};
ghost use Rattle.textcheck.specs.Fronts.{WithinSizes};
ghost use Rattle.textcheck.specs.Lengths.{length_alone};
ghost use Rattle.textcheck.specs.Promises.{as_it_is, TextPromise};

use mapfile::{EDGE_ROOM, NODE_ROOM, PAIR_ROOM, Sizes};
use model::Reason;
use tablecheck::Reported;

// Checks the tables of these sizes at the front of the slices.
fn check_front(
    spec_nodes: &[i64],
    spec_edges: &[i64],
    impl_nodes: &[i64],
    impl_edges: &[i64],
    root_pairs: &[i64],
    leaf_pairs: &[i64],
    sizes: Sizes,
    report: &mut [u8],
) -> Result<Reported, Reason>
    requires { WithinSizes (lent spec_nodes.now spec_edges.now impl_nodes.now impl_edges.now root_pairs.now leaf_pairs.now) sizes }
    ensures { Gives (check_read (length report.old) (full
        (front (lent spec_nodes.now spec_edges.now impl_nodes.now impl_edges.now
        root_pairs.now leaf_pairs.now) sizes)))
        report.old report.new result }
{
    tablecheck::check_tables(
        &spec_nodes[..sizes.spec_nodes],
        &spec_edges[..sizes.spec_edges],
        &impl_nodes[..sizes.impl_nodes],
        &impl_edges[..sizes.impl_edges],
        &root_pairs[..sizes.root_pairs],
        &leaf_pairs[..sizes.leaf_pairs],
        report,
    )
}

// Checks a map file: the report's length with its whole verdict, or the refusal.
pub fn check_map(text: &[u8], report: &mut [u8]) -> Result<Reported, Reason>
    ensures { Gives (text_answer (length report.old) text.now) report.old report.new result }
{
    let mut spec_nodes = [0i64; NODE_ROOM];
    let mut spec_edges = [0i64; EDGE_ROOM];
    let mut impl_nodes = [0i64; NODE_ROOM];
    let mut impl_edges = [0i64; EDGE_ROOM];
    let mut root_pairs = [0i64; PAIR_ROOM];
    let mut leaf_pairs = [0i64; PAIR_ROOM];
    let sizes = mapfile::read_map(
        text,
        &mut spec_nodes,
        &mut spec_edges,
        &mut impl_nodes,
        &mut impl_edges,
        &mut root_pairs,
        &mut leaf_pairs,
    )?;
    check_front(
        &spec_nodes,
        &spec_edges,
        &impl_nodes,
        &impl_edges,
        &root_pairs,
        &leaf_pairs,
        sizes,
        report,
    )
}

// The outcome without the verdict.
#[tactic(auto, unfolding(crate::specs::Lengths::length_alone))]
pub fn written_of(outcome: Result<Reported, Reason>) -> Result<usize, Reason>
    ensures { written_answer result ≡ length_alone (outcome_answer outcome) }
{
    outcome.map(|reported| reported.length)
}

// Checks a map file and writes the report: its length, or the refusal, on which the buffer is untouched.
pub fn text_check(text: &[u8], report: &mut [u8]) -> Result<usize, Reason>
    ensures { TextPromise as_it_is text.now report.old report.new (written_answer result) }
{
    written_of(check_map(text, report))
}
