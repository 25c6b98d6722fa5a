// That no ID comes twice among the contexts of a sheet: each that was seen is marked, and the records are gone over once.
ghost use Rattle.std.specs.Prelude.{◌≡◌, map};
ghost use Rattle.laws.specs.Lists.{distinct};
ghost use Rattle.sheets.specs.Contexts.{context_id};
ghost use Rattle.sheets.specs.Sheet.{record_id, sheet_runs};

use crate::record::same_run;
use id_set::IdSet;
use numbers::RECORD;

// Whether no ID starts a second run.
pub(crate) fn runs_differ(rs: &[[u8; RECORD]]) -> bool
    ensures { result ≡ distinct (map context_id (sheet_runs rs.now)) }
{
    let mut seen = IdSet::empty();
    for run in rs.chunk_by(same_run) {
        if !seen.insert(run[0][0]) {
            return false;
        }
    }
    true
}

// Whether no two records have the same ID.
pub(crate) fn ids_differ(rs: &[[u8; RECORD]]) -> bool
    ensures { result ≡ distinct (map record_id rs.now) }
{
    let mut seen = IdSet::empty();
    for r in rs {
        if !seen.insert(r[0]) {
            return false;
        }
    }
    true
}
