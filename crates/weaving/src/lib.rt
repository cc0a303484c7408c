// Weaving two plans into one (document 02, Ask 10), over the records of legal trees.
#![tactic(auto)]

ghost use Rattle.std.specs.Prelude.{◌≡◌, ◌≤◌, false, length};
ghost use Rattle.tree.specs.Record.{path_at};
ghost use Rattle.tree.specs.Weaving.{open_in_both, doubled_out_of_range, woven_path};
ghost use Rattle.bridge.specs.Rows.{tree_of_rows};
ghost use Rattle.paths.specs.Rules.{set_line};
ghost use Rattle.weaving.specs.Sides.{with_side, PlansWoven};

use booking::{clear_line, put_row};
use paths::record::TreeRecord;
use tree::line::Line;
use tree::refusal::Refusal;
use tree::{Plan, Row};

// Some line is open in both plans.
fn open_in_both(a: TreeRecord<'_>, b: TreeRecord<'_>) -> bool
    ensures { result ≡ open_in_both (tree_of_rows a.entry.rows.now) (tree_of_rows b.entry.rows.now) }
{
    for number in 0..64 {
        let line = Line { number };
        if !paths::is_closed(a.rows, line) && !paths::is_closed(b.rows, line) {
            return true;
        }
    }
    false
}

// The doubled period of some line passes 4,095.
fn doubled_out_of_range(tree: TreeRecord<'_>) -> bool
    ensures { result ≡ doubled_out_of_range (tree_of_rows tree.entry.rows.now) }
{
    for number in 0..64 {
        let line = Line { number };
        if !paths::is_closed(tree.rows, line)
            && 4095 < 2 * u32::from(asking::times_of(tree, line).period.0)
        {
            return true;
        }
    }
    false
}

// A line's woven path is written: the root's row, and below it the line's own rows. The one row of a root of weight 1 is left out.
fn weave_line(rows: &mut [u16; 1408], tree: TreeRecord<'_>, line: Line, side: u16)
    requires { length (woven_path side (path_at tree.rows.now line.number)) ≤ 11 }
    ensures { rows.new ≡ set_line rows.old line.number (woven_path side (path_at tree.entry.rows.now line.number)) }
{
    clear_line(rows, line);
    let root = Row {
        weight: 2,
        edge: side,
    };
    put_row(rows, line, 0, root);
    if paths::weight(tree.rows, line, 0) == 1 {
        return;
    }
    for k in 0..paths::path_length(tree.rows, line) {
        put_row(rows, line, k + 1, paths::row(tree.rows, line, k));
    }
}

// The open lines of a side are written.
fn weave_side(rows: &mut [u16; 1408], tree: TreeRecord<'_>, side: u16)
    requires { doubled_out_of_range (tree_of_rows tree.rows.now) ≡ false }
    ensures { rows.new ≡ with_side rows.old (path_at tree.entry.rows.now) side 64 }
{
    for number in 0..64 {
        let line = Line { number };
        if !paths::is_closed(tree.rows, line) {
            weave_line(rows, tree, line, side);
        }
    }
}

// Weaves two plans: the lines of the first get the even rounds, those of the second the odd ones. Refused with 15 where a line
// is open in both, then with 16 where a doubled period passes 4,095.
pub fn weave(a: TreeRecord<'_>, b: TreeRecord<'_>) -> Result<Plan, Refusal>
    ensures { PlansWoven a.entry.rows.now b.entry.rows.now result }
{
    if open_in_both(a, b) {
        return Err(Refusal::OpenInBoth);
    }
    if doubled_out_of_range(a) || doubled_out_of_range(b) {
        return Err(Refusal::DoubledPeriodOutOfRange);
    }
    let mut plan = Plan { rows: [0; 1408] };
    weave_side(&mut plan.rows, a, 0);
    weave_side(&mut plan.rows, b, 1);
    Ok(plan)
}
