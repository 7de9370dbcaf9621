// The table of the second engine, filled: the facts of every token that reads ahead, as the plain engine's reading gives them there.
#![tactic(auto)]

ghost use Rattle.std.specs.Prelude.{◌≡◌, ◌*◌, ◌≤◌, length};
ghost use Rattle.around.specs.Readable.{Readable};
ghost use Rattle.table.specs.Table.{Filled};

pub fn fill(table: &mut [u32], sheet: &[u8], base: usize, n: usize)
    requires readable { Readable sheet.now base n }
    requires n_in_bounds { 6 * n ≤ length table.old }
    ensures table_len_unchanged { length table.new ≡ length table.old }
    ensures filled { Filled sheet.now base n table.new }
{
    table_blocks::fill(table, sheet, base, n);
    table_spans::fill(table, sheet, base, n);
}
