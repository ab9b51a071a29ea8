// Sums of the words of values.
ghost use Rattle.std.specs.Prelude.{◌≡◌, ◌≤◌, ◌*◌, ◌^◌, length, sum};
ghost use Rattle.sh_text.specs.Text.{sum_of};

use sh_base::Value;
use sh_map::Row;

/// The sum of a value's words.
pub fn sum_of_value(value: &Value) -> u128
    ensures sum { result ≡ sum value.now }
    ensures small { result ≤ 8 * 2 ^ 64 }
{
    let words = value.words();
    let mut total = 0;
    for index in 0..value.len() {
        total += u128::from(words[index]);
    }
    total
}

/// The sum of all words of the rows' values. Condition: there are at most 2^57 rows.
pub fn sum_of(rows: &[Row]) -> u128
    requires { length rows.now ≤ 2 ^ 57 }
    ensures { result ≡ sum_of rows.now }
{
    let mut total = 0;
    for row in rows {
        total += sum_of_value(&row.value);
    }
    total
}
