// The table by value, and its limits.
ghost use Rattle.std.specs.Prelude.{◌≡◌};
ghost use Rattle.table.specs.Marks.{empty_table};

use circuits::Circuit;

// One lender's yes marks, or a set of wires: bit v is wire v's.
pub type Row = u32;

#[derive(Clone, Copy)]
pub struct Table {
    pub width: u8,
    // A row for each lender.
    pub rows: [Row; Table::ROWS],
    // The used lenders, and the used takers.
    pub lending: Row,
    pub taking: Row,
}

impl Table {
    // The most wires.
    pub const MOST: u8 = Circuit::MOST_WIRES as u8;

    pub const ROWS: usize = Circuit::MOST_WIRES;

    // The bytes of a row, and of the whole table: the width, the rows, the used lenders and the used takers.
    pub const ROW_BYTES: usize = 4;

    pub const BYTES: usize = 1 + Table::ROW_BYTES * (Table::ROWS + 2);

    // No wires and no marks.
    #[tactic(auto, unfolding(crate::specs::Marks::empty_table))]
    pub fn empty() -> Table
        ensures { result ≡ empty_table }
    {
        Table {
            width: 0,
            rows: [0; Table::ROWS],
            lending: 0,
            taking: 0,
        }
    }
}
