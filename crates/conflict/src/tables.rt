// The compatibility matrix as it is printed for training, the table of what covers what in the same layout, and how both are looked up (02, No. 4; 000, 18.4.2).
ghost use Rattle.std.specs.Prelude.{◌≡◌};
ghost use Rattle.conflict.specs.Tables.{in_row, Column, look_up};

use crate::modes::{Mode, mode_is_free};

// A row of a table: what it says of S, of X, of I and of U.
#[derive(Clone, Copy)]
pub struct Row(pub bool, pub bool, pub bool, pub bool);

// A table: the rows of S, of X, of I and of U.
#[derive(Clone, Copy)]
pub struct Table(pub Row, pub Row, pub Row, pub Row);

// Yes.
pub const Y: bool = true;

// No.
pub const N: bool = false;

// The compatibility matrix: a row for each mode that another job holds, a column for each mode that is asked for. Is it granted?
//
//      S  X  I  U   asked for
pub const GRANTS: Table = Table(
    Row(Y, N, N, Y), // S held
    Row(N, N, N, N), // X held
    Row(N, N, Y, N), // I held
    Row(N, N, N, N), // U held
);

// What covers what: a row for each mode that a job holds, a column for each mode that it needs. Does the job have what it needs?
//
//      S  X  I  U   needed
pub const COVERS: Table = Table(
    Row(Y, N, N, N), // has S
    Row(Y, Y, Y, Y), // has X
    Row(N, N, Y, N), // has I
    Row(Y, N, N, Y), // has U
);

// What a row says of a mode. `Free` has no column, and every row says yes to it.
fn says(r: Row, m: Mode) -> bool
    ensures { result ≡ in_row r m }
{
    match m {
        Mode::Free => Y,
        Mode::S => r.0,
        Mode::X => r.1,
        Mode::I => r.2,
        Mode::U => r.3,
    }
}

// The column of a mode: what each row says of it.
fn column_of(table: Table, m: Mode) -> Row
    ensures { Column table m result }
{
    Row(
        says(table.0, m),
        says(table.1, m),
        says(table.2, m),
        says(table.3, m),
    )
}

// What the row of a held mode says of another mode. `Free` has no column, and the answer to it is yes. `Free` has no row in the table either: `unheld` is its row.
// Otherwise the column of the other mode is asked about the held one: the column stays the same while one holder after another is looked at.
#[tactic(auto, using(crate::proofs::TableRule::by_column, crate::proofs::TableRule::no_column, crate::proofs::TableRule::no_row))]
pub fn look(table: Table, unheld: Row, held: Mode, other: Mode) -> bool
    ensures { result ≡ look_up table unheld held other }
{
    if mode_is_free(other) {
        return Y;
    }
    if mode_is_free(held) {
        return says(unheld, other);
    }
    says(column_of(table, other), held)
}
