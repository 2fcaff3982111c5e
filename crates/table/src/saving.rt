// The bytes of a table, written and read back.
ghost use Rattle.std.specs.Prelude.{◌≡◌, ◌+◌, ◌*◌, ◌≤◌, length};
ghost use Rattle.writing.specs.Writing.{Placed, Wrote};
ghost use Rattle.writing.specs.Numbers.{bytes_of, bytes_of_all};
ghost use Rattle.table.specs.Limits.{most_wires, row_bytes, table_length};
ghost use Rattle.table.specs.TableBytes.{set_at, table_of, table_bytes};

use crate::tables::{Row, Table};

// A row or a set of used wires, by its index after the width, of bytes that hold a whole table.
#[tactic(auto, using(crate::proofs::RowBytes::row_number))]
fn set_at(bytes: &[u8], index: usize) -> Row
    requires index_bound { index ≤ most_wires + 1 }
    requires table_length_in_bounds { table_length ≤ length bytes.now }
    ensures { result ≡ set_at bytes.now index }
{
    let at = 1 + Table::ROW_BYTES * index;
    Row::from_le_bytes([bytes[at], bytes[at + 1], bytes[at + 2], bytes[at + 3]])
}

// The table that bytes say which hold a whole one: no byte needs a test of its own.
fn whole_table(bytes: &[u8]) -> Table
    requires { table_length ≤ length bytes.now }
    ensures { result ≡ table_of bytes.now }
{
    let mut rows = [0; Table::ROWS];
    for (index, row) in rows.iter_mut().enumerate() {
        *row = set_at(bytes, index);
    }
    Table {
        width: bytes[0],
        rows,
        lending: set_at(bytes, Table::ROWS),
        taking: set_at(bytes, Table::ROWS + 1),
    }
}

// The table that bytes say: missing bytes count as 0, and further ones are not read.
pub fn table_of(bytes: &[u8]) -> Table
    ensures { result ≡ table_of bytes.now }
{
    if bytes.len() < Table::BYTES {
        let mut padded = [0; Table::BYTES];
        writing::put_bytes(&mut padded, 0, bytes);
        return whole_table(&padded);
    }
    whole_table(bytes)
}

#[tactic(auto, using(crate::proofs::RowBytes::row_digits))]
fn put_row(row: Row, out: &mut [u8], at: usize) -> usize
    ensures { Placed out.old at (bytes_of row_bytes row) out.new result }
{
    writing::put_bytes(out, at, &row.to_le_bytes())
}

fn store_rows(rows: &[Row], out: &mut [u8], at: usize) -> usize
    requires { at + length rows.now * row_bytes ≤ length out.old }
    ensures { Wrote out.old at (bytes_of_all row_bytes rows.now) out.new result }
{
    let mut to = at;
    for row in rows {
        to = put_row(*row, out, to);
    }
    to
}

fn store_table(table: Table, out: &mut [u8], at: usize) -> usize
    requires { at + table_length ≤ length out.old }
    ensures { Wrote out.old at (table_bytes table) out.new result }
{
    out[at] = table.width;
    let lenders = store_rows(&table.rows, out, at + 1);
    let takers = put_row(table.lending, out, lenders);
    put_row(table.taking, out, takers)
}

// Puts a table's bytes into a buffer from a place on and gives the place after them; where there is no room nothing
// is stored and the place stays. It looks for room as `put_bytes` does, so that no table is stored twice.
pub fn write_table(table: Table, out: &mut [u8], at: usize) -> usize
    ensures { Placed out.old at (table_bytes table) out.new result }
{
    if out.len() < Table::BYTES || out.len() - Table::BYTES < at {
        return at;
    }
    store_table(table, out, at)
}
