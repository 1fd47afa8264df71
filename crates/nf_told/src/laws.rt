//! What follows from the definitions. Each function does nothing, and its clause is the law.

ghost use Rattle.std.specs.Prelude.{◌≡◌, List, All, ◌∷◌, map};
ghost use Rattle.std.specs.List.{Contains};
ghost use Rattle.nf_base.specs.declared.changes.Change.{Change};
ghost use Rattle.nf_base.specs.declared.changes.RowKey.{RowKey};
ghost use Rattle.nf_base.specs.declared.rows.MetaRow.{MetaRow};
ghost use Rattle.nf_base.specs.declared.rows.Row.{Row};
ghost use Rattle.nf_base.specs.declared.rows.Row.TheVariants.{Meta};
ghost use Rattle.nf_defs.specs.Prelude.{AreRising, IsDroppable, rows_of, Tables, tables_of};
ghost use Rattle.nf_rows.specs.Spelling.{Fits, FitsKey, kind_of, spelling_of};
ghost use Rattle.nf_told.specs.Laws.{AreOrderedAlike, AreTheirTables, Begin, Follows};
ghost use Rattle.nf_told.specs.Told.{AreFit, AreRisingRaws, FitsChange, told_of};

/// The numbers of keys of one kind are in the order of their spelled bytes.
pub fn keys_keep_order()
    ensures { (a b : RowKey) → kind_of a ≡ kind_of b → FitsKey a → FitsKey b → AreOrderedAlike a b }
{}

/// What is told follows the tables, and they stay by rising key, with rows that can be spelled.
pub fn told_follows()
    ensures { (t : Tables) (changes : List Change) → AreRising t → AreFit t → All FitsChange changes → All IsDroppable changes
        → Follows t changes }
{}

/// Tables are made again of their own rows, and whatever rows make tables that rise.
pub fn tables_again()
    ensures again { (t : Tables) → AreRising t → tables_of (rows_of t) ≡ t }
    ensures rise { (rows : List Row) → AreRising (tables_of rows) }
{}

/// What is told of tables is by rising kind and key.
pub fn told_rises()
    ensures { (t : Tables) → AreRising t → AreFit t → AreRisingRaws (told_of t) }
{}

/// The first rows that are put, the meta row before all others, make what is told of their tables.
pub fn told_begins()
    ensures { (meta : MetaRow) (rest : List Row) → All Fits (Meta meta ∷ rest) → Begin (Meta meta ∷ rest) }
{}

/// Rows by rising kind and key, a meta row among them, are those of their tables.
pub fn told_again()
    ensures { (rows : List Row) (meta : MetaRow) → All Fits rows → AreRisingRaws (map spelling_of rows) → Contains rows (Meta meta)
        → AreTheirTables rows }
{}
