// The words of leaves.
ghost use Rattle.std.specs.Prelude.{◌≡◌, ◌+◌, ◌*◌, ◌^◌, ◌<◌, ◌≤◌, ◌++◌, ◌∷◌, [], length, map, min, replicate, take};
ghost use Rattle.std.specs.List.{flat_map};
ghost use Rattle.sh_base.specs.{Parts.{parts_of}, Setting.{node_size}, Layout.{entry_at}};
ghost use Rattle.sh_map.specs.{Map.{row_pair}, Rows.{row_key}};
ghost use Rattle.sh_image.specs.{Entries.{entry_words}, Leaf.{empty_entry, leaf_words}};
ghost use Rattle.sh_edit.specs.Splitting.{entries_from, entry_with};
ghost use Rattle.sh_bulk.specs.{Shape.{count_in, leaf_fill}, Nodes.{high_in, low_in, next_in, words_at, HaveValues}, Words.{words_from}};

use crate::shape::leaf_fill;
use sh_base::Config;
use sh_map::Row;

// What a leaf's words say of the others.
#[derive(Clone, Copy)]
struct Fences {
    low: u64,
    high: u64,
    next: u64,
}

// Writes the words before the entries.
fn put_header(fences: Fences, out: &mut [u64])
    requires { 6 < length out.old }
    ensures { take 6 out.new ≡ 0 ∷ 0 ∷ fences.low ∷ fences.high ∷ fences.next ∷ 0 ∷ [] }
{
    out[0] = 0;
    out[1] = 0;
    out[2] = fences.low;
    out[3] = fences.high;
    out[4] = fences.next;
    out[5] = 0;
}

// Writes the words of a value. One word alone costs less than a copy of a slice.
fn put_value(words: &[u64], out: &mut [u64])
    requires { length out.old ≡ length words.now }
    ensures { out.new ≡ words.now }
{
    if words.len() == 1 {
        out[0] = words[0];
    } else {
        out.copy_from_slice(words);
    }
}

// Writes the words of a row's entry.
fn put_entry(row: &Row, out: &mut [u64])
    requires { length out.old ≡ 3 + length row.now.value }
    ensures { out.new ≡ entry_words (entry_with (row_pair row.now)) }
{
    let rear = out.len() - 1;
    out[0] = 0;
    out[1] = row.key;
    put_value(row.value.words(), &mut out[2..rear]);
    out[rear] = 0;
}

// Writes the entries of the rows behind the header, and answers where they end.
fn put_entries(cfg: &Config, rows: &[Row], out: &mut [u64]) -> usize
    requires size { length out.old ≡ node_size (parts_of cfg.now) }
    requires count { length rows.now ≤ cfg.now.parts.leaf }
    requires values { HaveValues (parts_of cfg.now) rows.now }
    ensures end { result ≡ entry_at (parts_of cfg.now) (length rows.now) }
    ensures front { take result out.new ≡ take 6 out.old ++ flat_map entry_words (map entry_with (map row_pair rows.now)) }
{
    let size = cfg.entry_size() as usize;
    let mut at = 6;
    for i in 0..rows.len() {
        put_entry(&rows[i], &mut out[at..at + size]);
        at += size;
    }
    at
}

// Writes zeros.
fn clear(out: &mut [u64])
    ensures { out.new ≡ replicate (length out.old) 0 }
{
    out.fill(0);
}

// Writes the words of a leaf.
fn put_leaf(cfg: &Config, rows: &[Row], fences: Fences, out: &mut [u64])
    requires size { length out.old ≡ node_size (parts_of cfg.now) }
    requires count { length rows.now ≤ cfg.now.parts.leaf }
    requires values { HaveValues (parts_of cfg.now) rows.now }
    ensures { out.new ≡ leaf_words (record { version = 0; low = fences.low; high = fences.high; next = fences.next; entries = entries_from cfg.now.parts.leaf (empty_entry (parts_of cfg.now)) (map row_pair rows.now) }) }
{
    put_header(fences, out);
    let end = put_entries(cfg, rows, out);
    clear(&mut out[end..]);
}

/// The key of a row.
pub(crate) fn key_at(rows: &[Row], at: usize) -> u64
    requires { at < length rows.now }
    ensures { result ≡ row_key rows.now at }
{
    rows[at].key
}

// The low of leaf j, which begins with the row at `from`.
fn low_of(_cfg: &Config, rows: &[Row], j: usize, from: usize) -> u64
    requires leaf { j < count_in (parts_of _cfg.now) (length rows.now) 0 }
    requires from { from ≡ j * leaf_fill (parts_of _cfg.now) }
    ensures { result ≡ low_in (parts_of _cfg.now) rows.now 0 j }
{
    if j == 0 { 0 } else { key_at(rows, from) }
}

// What leaf j says of the others, where it has the rows from `from` up to `to`.
fn fences_of(cfg: &Config, rows: &[Row], j: usize, from: usize, to: usize) -> Fences
    requires leaf { j < count_in (parts_of cfg.now) (length rows.now) 0 }
    requires few { length rows.now ≤ 2 ^ 57 }
    requires from { from ≡ j * leaf_fill (parts_of cfg.now) }
    requires to { to ≡ min (from + leaf_fill (parts_of cfg.now)) (length rows.now) }
    ensures { result ≡ record { low = low_in (parts_of cfg.now) rows.now 0 j; high = high_in (parts_of cfg.now) rows.now 0 j; next = next_in (parts_of cfg.now) rows.now 0 j } }
{
    let low = low_of(cfg, rows, j, from);
    if to < rows.len() {
        Fences {
            low,
            high: key_at(rows, to),
            next: j as u64 + 2,
        }
    } else {
        Fences {
            low,
            high: u64::MAX,
            next: 0,
        }
    }
}

// Writes leaf j.
fn build_leaf(cfg: &Config, rows: &[Row], j: usize, out: &mut [u64])
    requires leaf { j < count_in (parts_of cfg.now) (length rows.now) 0 }
    requires few { length rows.now ≤ 2 ^ 57 }
    requires size { length out.old ≡ node_size (parts_of cfg.now) }
    requires values { HaveValues (parts_of cfg.now) rows.now }
    ensures { out.new ≡ words_at (parts_of cfg.now) rows.now 0 j }
{
    let fill = leaf_fill(cfg);
    let from = j * fill;
    let to = (from + fill).min(rows.len());
    let fences = fences_of(cfg, rows, j, from, to);
    put_leaf(cfg, &rows[from..to], fences, out);
}

/// Writes count leaves, from leaf `from` on.
pub(crate) fn build_leaves(cfg: &Config, rows: &[Row], from: usize, count: usize, out: &mut [u64])
    requires leaves { from + count ≤ count_in (parts_of cfg.now) (length rows.now) 0 }
    requires few { length rows.now ≤ 2 ^ 57 }
    requires size { length out.old ≡ count * node_size (parts_of cfg.now) }
    requires values { HaveValues (parts_of cfg.now) rows.now }
    ensures { out.new ≡ words_from (parts_of cfg.now) rows.now 0 from count }
{
    let size = cfg.node_size() as usize;
    let mut at = 0;
    for k in 0..count {
        build_leaf(cfg, rows, from + k, &mut out[at..at + size]);
        at += size;
    }
}
