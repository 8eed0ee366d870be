//! A CSV file.

ghost use Rattle.std.specs.Prelude.{vec_items};
ghost use Rattle.csv_import.specs.Inserts.{GivesAll, inserts_of, records_in};

use crate::records::{take_record, wrong_record};
use csv::ReaderBuilder;
use evaluator::Change;
use evaluator::row_types::Refused;
use evaluator::table_defs::TableDef;
use evaluator::tier_base::TableId;
use std::alloc::Global;

/// The INSERTs of a CSV file's records into the table, in their order, each of the whole row. The first record is the
/// header, which names the columns in their order and in any case. A field without bytes is NULL, and an empty line is
/// no record. Values are those that the fields write: the insert rounds them.
///
/// The refusal is that of the first record that is refused, by its number k, where the header is number 0:
///
/// - 101 with 0: the file has no record, or the header is another one.
/// - 119 of operations: a record past the 10,000th.
/// - 101 with k: another number of fields than columns, or a field that isn't UTF-8.
/// - 105 of a column: the first whose field doesn't read: an integer is an optional `-` and digits, a NUMBER may have a
///   point and digits behind them, a time is written as it is printed, and a text has no control character but the tab;
///   else the first column that can't hold its value, rounded to its scale.
/// - 106 of the first column that refuses NULL.
///
/// Or memory was wanting. (RFC 4180, as the crate `csv` reads it; codes and their order are this project's rule.)
pub fn read_inserts(
    alloc: Global,
    table: TableId,
    def: &TableDef,
    bytes: &[u8],
) -> Result<Vec<Change>, Refused>
    ensures { GivesAll vec_items (inserts_of table def.now (records_in bytes.now)) result }
{
    let reader = ReaderBuilder::new()
        .has_headers(false)
        .flexible(true)
        .from_reader(alloc, bytes);
    let mut inserts = Vec::new(alloc);
    let mut number: u64 = 0;
    for row in reader.into_byte_records() {
        let Ok(raw) = row else {
            return Err(Refused::Memory);
        };
        take_record(
            alloc,
            table,
            def.columns.as_slice(),
            number,
            raw,
            &mut inserts,
        )?;
        number += 1;
    }
    if number == 0 {
        return Err(wrong_record(0));
    }
    Ok(inserts)
}
