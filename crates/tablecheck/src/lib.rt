// The report of two graphs: their tables are checked, all pairs are surveyed, and where the report fits it is written from the lines that are held. A report
// with more lines than are held is worked a second time, and written as it goes.
#![tactic(auto)]

ghost use mathlib.Core.List.{flat_map};
ghost use Rattle.std.specs.Prelude.{◌≤◌, length};
ghost use Rattle.model.specs.Compare.{findings};
ghost use Rattle.model.specs.Report.{finding_line};
ghost use Rattle.model.specs.Calls.{full};
ghost use Rattle.model.specs.Answers.{comparison_result};
ghost use Rattle.model.specs.TextCheck.{check_read};
ghost use Rattle.pairing.specs.Pairs.{tables_of};
ghost use Rattle.report.specs.Put.{Put};
ghost use Rattle.reporting.specs.Lines.{report_from, SmallResult};
ghost use Rattle.tablecheck.specs.Reports.{Reportable};
ghost use Rattle.tablecheck.specs.Outcomes.{Gives};

use forward::PLAN_ROOM;
use grouping::LINK_ROOM;
use model::{Reason, Verdict};
use prepare::prepare;
use report::put_heading;
use reporting::{fixed_length, put_ending, put_lines};
use survey::{put_all, survey};
use totals::Kept;

// What the check of tables gives: the length of the report with the whole verdict that it states.
#[derive(Clone, Copy)]
pub struct Reported {
    pub length: usize,
    pub verdict: Verdict,
}

// Lines that are held: as many as 65,536 bytes may have, with seven digits, six spaces and a line feed each.
const LINE_ROOM: usize = 4681;

// Writes the lines of all pairs: those that are held where they are all there, else those of a second survey.
fn put_pairs(
    spec_nodes: &[i64],
    spec_edges: &[i64],
    impl_nodes: &[i64],
    impl_edges: &[i64],
    root_pairs: &[i64],
    leaf_pairs: &[i64],
    links: &[usize],
    spec_plan: &[usize],
    impl_plan: &[usize],
    lines: &mut [usize],
    count: usize,
    out: &mut [u8],
) -> usize
    requires { Reportable (tables_of spec_nodes.now spec_edges.now impl_nodes.now impl_edges.now root_pairs.now leaf_pairs.now) spec_plan.now impl_plan.now links.now lines.old
        count
        × (length (flat_map finding_line (findings (tables_of spec_nodes.now spec_edges.now impl_nodes.now impl_edges.now root_pairs.now leaf_pairs.now))) ≤ length out.old) }
    ensures { Put (flat_map finding_line (findings
        (tables_of spec_nodes.now spec_edges.now impl_nodes.now impl_edges.now
        root_pairs.now leaf_pairs.now)))
        out.old out.new result }
{
    if count <= lines.len() {
        return put_lines(out, lines, count);
    }
    put_all(
        spec_nodes, spec_edges, impl_nodes, impl_edges, root_pairs, leaf_pairs, links, spec_plan,
        impl_plan, lines, out,
    )
}

// Writes a report that fits: the names, the lines of the pairs and the result, each into what remains of the buffer.
fn put_report(
    spec_nodes: &[i64],
    spec_edges: &[i64],
    impl_nodes: &[i64],
    impl_edges: &[i64],
    root_pairs: &[i64],
    leaf_pairs: &[i64],
    links: &[usize],
    spec_plan: &[usize],
    impl_plan: &[usize],
    lines: &mut [usize],
    kept: Kept,
    out: &mut [u8],
) -> usize
    requires { Reportable (tables_of spec_nodes.now spec_edges.now impl_nodes.now impl_edges.now root_pairs.now leaf_pairs.now) spec_plan.now impl_plan.now links.now lines.old
        kept.count
        × SmallResult (comparison_result kept.result)
        × (length (report_from (flat_map finding_line (findings (tables_of spec_nodes.now spec_edges.now impl_nodes.now impl_edges.now root_pairs.now leaf_pairs.now)))
        (comparison_result kept.result))
        ≤ length out.old) }
    ensures { Put (report_from (flat_map finding_line (findings
        (tables_of spec_nodes.now spec_edges.now impl_nodes.now impl_edges.now
        root_pairs.now leaf_pairs.now)))
        (comparison_result kept.result))
        out.old out.new result }
{
    let at = put_heading(out);
    let at = at
        + put_pairs(
            spec_nodes,
            spec_edges,
            impl_nodes,
            impl_edges,
            root_pairs,
            leaf_pairs,
            links,
            spec_plan,
            impl_plan,
            lines,
            kept.count,
            &mut out[at..],
        );
    at + put_ending(&mut out[at..], kept.result)
}

// Checks the tables of a map: compares the two graphs and writes the report, or refuses. Once the lines are longer than the buffer, no further root row
// is begun.
pub fn check_tables(
    spec_nodes: &[i64],
    spec_edges: &[i64],
    impl_nodes: &[i64],
    impl_edges: &[i64],
    root_pairs: &[i64],
    leaf_pairs: &[i64],
    report: &mut [u8],
) -> Result<Reported, Reason>
    ensures { Gives (check_read (length report.old) (full
        (tables_of spec_nodes.now spec_edges.now impl_nodes.now impl_edges.now
        root_pairs.now leaf_pairs.now)))
        report.old report.new result }
{
    let mut spec_plan = [0usize; PLAN_ROOM];
    let mut impl_plan = [0usize; PLAN_ROOM];
    let mut links = [0usize; LINK_ROOM];
    prepare(
        spec_nodes,
        spec_edges,
        impl_nodes,
        impl_edges,
        root_pairs,
        leaf_pairs,
        &mut spec_plan,
        &mut impl_plan,
        &mut links,
    )?;
    let mut lines = [0usize; LINE_ROOM];
    let room = report.len();
    let kept = survey(
        spec_nodes, spec_edges, impl_nodes, impl_edges, root_pairs, leaf_pairs, &links, &spec_plan,
        &impl_plan, room, &mut lines,
    );
    if kept.bytes > room {
        return Err(Reason::LongOutput);
    }
    let length = fixed_length(kept.result) + kept.bytes;
    if length > room {
        return Err(Reason::LongOutput);
    }
    put_report(
        spec_nodes, spec_edges, impl_nodes, impl_edges, root_pairs, leaf_pairs, &links, &spec_plan,
        &impl_plan, &mut lines, kept, report,
    );
    Ok(Reported {
        length,
        verdict: kept.result.verdict,
    })
}
