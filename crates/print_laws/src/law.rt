//! Laws of what is printed. A law is the contract of a function that does nothing.
ghost use Rattle.print_laws.specs.Laws.{PrintsAsked, PrintsGroups, PrintsStatements, PrintsTables, PrintsWrites, ReadsStatements};

/// What is printed of a table that some line of the console defines, defines the table's normal form, behind
/// `backing: `.
pub fn print_table_law()
    ensures { PrintsTables }
{}

/// What is printed of a statement that some bytes spell (`spells`), or that some line of a session asks for (`asked`),
/// spells the statement's normal form. Each answer to bytes that spell a statement is that statement, or want of memory
/// (`reads`).
pub fn print_law()
    ensures spells { PrintsStatements }
    ensures asked { PrintsAsked }
    ensures reads { ReadsStatements }
{}

/// What is printed of a CREATE CACHE GROUP that some bytes spell, spells the normal form of that group's definition.
pub fn print_group_law()
    ensures { PrintsGroups }
{}

/// What is printed of writes that some line of the console asks for, asks for them, behind `backing: `.
pub fn print_writes_law()
    ensures { PrintsWrites }
{}
