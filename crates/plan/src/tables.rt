// The two tables of hex digits, which a runner makes once and lends to what reads and writes below it.
ghost use Rattle.std.specs.Prelude.{◌≡◌};
ghost use Rattle.hex_tables.specs.Tables.{reading_table, writing_table};

// The table for reading and the table for writing.
#[derive(Drop)]
pub(crate) struct Tables {
    pub reading: [u8; 256],
    pub writing: [u8; 16],
    ghost for_reading: { reading ≡ reading_table },
    ghost for_writing: { writing ≡ writing_table },
}

// Both tables.
pub(crate) fn both_tables() -> Tables {
    Tables {
        reading: hex_tables::reading_table(),
        writing: hex_tables::writing_table(),
    }
}
