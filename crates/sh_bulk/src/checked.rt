// The first row that isn't good.
ghost use Rattle.std.specs.Prelude.{◌≡◌, ◌<◌, MatchResult};
ghost use Rattle.sh_base.specs.declared.config.ConfigParts.{ConfigParts};
ghost use Rattle.sh_sheet.specs.Row.{is_key};
ghost use Rattle.sh_bulk.specs.Fault.{AreGood, IsBulkFault};

use crate::BulkFault;
use sh_map::Row;

/// Whether a number is a key: 1 to 2^64-2.
pub(crate) fn is_key(n: u64) -> bool
    ensures { result ≡ is_key n }
{
    1 <= n && n < u64::MAX
}

/// Whether all rows are good, or the first that isn't.
pub(crate) fn check_rows(rows: &[Row]) -> Result<(), BulkFault>
    ensures { MatchResult result (λ _. AreGood rows.now) (λ e. (p : ConfigParts) → IsBulkFault p rows.now e) }
{
    let mut before = 0;
    for at in 0..rows.len() {
        let key = rows[at].key;
        if !is_key(key) {
            return Err(BulkFault::BadKey { at: at as u64 });
        }
        if key <= before {
            return Err(BulkFault::NotRising { at: at as u64 });
        }
        before = key;
    }
    Ok(())
}
