//! S1: where there are items there are buckets; the first bucket's number is 0, they don't fall, and none is past the
//! item count.
ghost use Rattle.std.specs.Prelude.{◌+◌, ◌<◌, ◌≤◌, ◌↔◌, IsTrue};
ghost use Rattle.dconf_model.specs.Table.{bucket, bucket_count, item_count};
ghost use Rattle.dconf_model.specs.Searchable.{HasBuckets};
ghost use Rattle.gvdb_format.specs.Tables.{region};

use gvdb_format::RawTable;

/// Whether the buckets keep the rule. It looks at each once, to the end in any case: so a processor looks at several at once.
pub fn has_buckets(table: RawTable<'_>) -> bool
    ensures { IsTrue result ↔ HasBuckets (region table.entry) }
{
    if table.n_buckets() == 0 {
        return table.n_items() == 0;
    }
    if table.bucket(0) != 0 {
        return false;
    }
    let mut last = 0;
    let mut falls = false;
    for k in 0..table.n_buckets() {
        let first = table.bucket(k);
        falls |= first < last;
        last = first;
    }
    !falls && last <= table.n_items()
}
