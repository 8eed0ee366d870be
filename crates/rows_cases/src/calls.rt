// Calls that no line reaches. The contract of each says what it answers; here each answers, where memory is ample.

use crate::build::{A, inserts, name, tables};
use evaluator::row_types::{ColumnDeclaration, TableDeclaration, TypeDeclaration};
use evaluator::table_state::{Entry, Sealed};
use evaluator::tier_base::{Seq, Ticket};
use instances::{Root, Tree, view};
use sql_print::print::{print_table, print_writes};
use sql_print::sql_query::{Delete, Write};
use std::alloc::{AllocError, Global};
use std::test::Fail;

fn is_table_printed(alloc: Global) -> Result<bool, AllocError> {
    let column = ColumnDeclaration {
        name: name(alloc, "ID")?,
        ty: TypeDeclaration::TtBigint,
        not_null: true,
        primary_key: false,
    };
    let table = TableDeclaration {
        name: name(alloc, "A")?,
        columns: Seq::from_vec(vec![in alloc; column]?),
        primary_key: None,
        foreign_key: None,
    };
    Ok(
        print_table(alloc, &table)?.as_bytes()
            == b"CREATE TABLE A ( ID TT_BIGINT NOT NULL )".as_slice(),
    )
}

fn are_writes_printed(alloc: Global) -> Result<bool, AllocError> {
    let delete = Delete {
        table: name(alloc, "A")?,
        filter: None,
    };
    let writes = vec![in alloc; Write::Delete(delete)]?;
    Ok(print_writes(alloc, writes.as_slice())?.as_bytes() == b"DELETE FROM A".as_slice())
}

fn is_entry_copied(alloc: Global) -> Result<bool, AllocError> {
    let entry = Entry::Own(Ticket(1), inserts(alloc, &[(A, 1, None)])?);
    Ok(entry.same(&entry.copied(alloc)?))
}

fn is_sealed_copied(alloc: Global) -> Result<bool, AllocError> {
    let sealed = Sealed {
        ticket: Ticket(1),
        ops: inserts(alloc, &[(A, 1, None)])?,
    };
    Ok(sealed.same(&sealed.copied(alloc)?))
}

// The view of A alone has A's one row.
fn is_viewed(alloc: Global) -> Result<bool, AllocError> {
    let tables = tables(alloc, A, &[(A, 1, None)])?;
    let tree = Tree {
        root: Root {
            table: A,
            filter: None,
        },
        children: Seq::new(alloc),
    };
    let kept = view(alloc, &tree, &tables)?;
    match kept.as_slice().first() {
        Some(rows) => Ok(rows.len() == 1),
        None => Ok(false),
    }
}

fn each_answers(alloc: Global) -> Result<bool, AllocError> {
    Ok(
        is_table_printed(alloc)?
            && are_writes_printed(alloc)?
            && is_entry_copied(alloc)?
            && is_sealed_copied(alloc)?
            && is_viewed(alloc)?,
    )
}

#[test]
fn each_answers_with_ample_memory(rt: HostRuntime) -> Result<(), Fail> {
    assert!(rt; each_answers(rt.alloc())?);
    Ok(())
}
