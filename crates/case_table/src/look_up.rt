//! Look-ups in a table.

ghost use Rattle.std.specs.Prelude.{◌≡◌, ◌==◌, map, position, bytes_eq, IsTrue};
ghost use Rattle.case_table.specs.Table.{codes_rise};

use crate::row::Case;

/// The place of the row with this code.
pub fn find<R: Case, const N: usize>(rows: &[R; N], code: u8) -> Option<usize>
    requires { IsTrue (codes_rise (map R.code rows.now)) }
    ensures { result ≡ position (λ row. R.code row == code) rows.now }
{
    place_of_code(rows, code)
}

fn place_of_code<R: Case>(rows: &[R], code: u8) -> Option<usize>
    requires { IsTrue (codes_rise (map R.code rows.now)) }
    ensures { result ≡ position (λ row. R.code row == code) rows.now }
{
    let mut low = 0;
    let mut high = rows.len();
    while low < high {
        let middle = low + (high - low) / 2;
        let found = rows[middle].code();
        if found == code {
            return Some(middle);
        }
        if found < code {
            low = middle + 1;
        } else {
            high = middle;
        }
    }
    None
}

/// The place of the first row with this name.
pub fn find_name<R: Case, const N: usize>(rows: &[R; N], name: &str) -> Option<usize>
    ensures { result ≡ position (λ row. bytes_eq (R.name row) name.now) rows.now }
{
    place_of_name(rows, name)
}

fn place_of_name<R: Case>(rows: &[R], name: &str) -> Option<usize>
    ensures { result ≡ position (λ row. bytes_eq (R.name row) name.now) rows.now }
{
    rows.iter().position(|row| row.name() == name)
}
