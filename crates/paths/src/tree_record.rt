// The check of a lent plan record, whose outcome is kept in a type.
ghost use Rattle.paths.specs.Checked.{CheckedRecord};

use crate::legal;
use crate::record::TreeRecord;

// The record as that of a tree, where it is one.
pub fn tree_record(rows: &[u16; 1408]) -> Option<TreeRecord<'_>>
    ensures { CheckedRecord rows.now result }
{
    if !legal(rows) {
        return None;
    }
    Some(TreeRecord { rows })
}
