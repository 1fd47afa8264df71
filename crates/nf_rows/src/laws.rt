//! What follows from the definitions. Each function does nothing, and its clause is the law.

ghost use Rattle.std.specs.Prelude.{◌≡◌, ◌-◌, ◌<◌, ◌≤◌, ℕ, List, [], length, take, Result, Err, IsOk, MatchResult};
ghost use Rattle.std.specs.Cmp.{IsTotalOrder};
ghost use Rattle.std.specs.declared.cmp.Ordering.TheVariants.{Equal};
ghost use Rattle.nf_base.specs.declared.changes.RowKey.{RowKey};
ghost use Rattle.nf_base.specs.declared.rows.Row.{Row};
ghost use Rattle.nf_rows.specs.declared.fault.RowFault.{RowFault};
ghost use Rattle.nf_rows.specs.declared.fault.RowFault.TheVariants.{Long, Memory, Short, Value};
ghost use Rattle.nf_rows.specs.declared.parts.TheConstants.{FORMAT};
ghost use Rattle.nf_rows.specs.Faults.{AreBytes, Gives, reading};
ghost use Rattle.nf_rows.specs.Spelling.{Fits, FitsKey, Keyed, Raw, key_cmp, key_spelling, spelling_of, values_of};

/// What `write` put is read as the row, but for want of memory. The premises are what `write` and `read` tell.
pub fn written_rows_are_read()
    ensures { (row : Row) (raw : Raw) (read : Result Row RowFault) → raw ≡ spelling_of row → Fits row
        → Gives (values_of FORMAT) read (reading raw.kind raw.key raw.body)
        → MatchResult read (λ again. again ≡ row) (λ fault. fault ≡ Memory) }
{}

/// One spelling is that of one row.
pub fn one_row()
    ensures { (a b : Row) → Fits a → Fits b → spelling_of a ≡ spelling_of b → a ≡ b }
{}

/// One spelling is that of one key: rows of one kind whose keys are spelled alike have equal key fields.
pub fn one_key()
    ensures { (a b : RowKey) → FitsKey a → FitsKey b → key_spelling a ≡ key_spelling b → a ≡ b }
{}

/// Keys are in one order, in which only equal ones tie.
pub fn keys_are_ordered()
    ensures total { IsTotalOrder key_cmp }
    ensures ties { (a b : Keyed) → key_cmp a b ≡ Equal → a ≡ b }
{}

/// What stands before a bad value is the front of a row: cut there, the row is short there.
pub fn bad_values_begin_there()
    ensures { (kind at : ℕ) (key body : List ℕ) → AreBytes key → AreBytes body → reading kind key body ≡ Err (Value at)
        → reading kind (take at key) (take (at - length key) body) ≡ Err (Short at) }
{}

/// What stands before a byte too many is a row where it is in the body, and in the key a whole key.
pub fn rows_are_whole_before_more()
    ensures row { (kind at : ℕ) (key body : List ℕ) → AreBytes key → AreBytes body → length key ≤ at
        → reading kind key body ≡ Err (Long at) → IsOk (reading kind key (take (at - length key) body)) }
    ensures key { (kind at : ℕ) (key body : List ℕ) → AreBytes key → AreBytes body → at < length key
        → reading kind key body ≡ Err (Long at) → reading kind (take at key) [] ≡ Err (Short at) }
{}
