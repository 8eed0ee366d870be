//! What is read but isn't done yet.

ghost use Rattle.std.specs.Prelude.{◌≡◌};
ghost use Rattle.cache_tier.specs.Undone.{is_grouped, is_undone, is_undone_group, is_undone_request, is_undone_statement, is_user_managed};

use sql_query::Query;
use sql_subset::request::{Line, Request};
use sql_subset::stmt::{CreateGroup, GroupKind, Stmt};

// USERMANAGED.
fn is_user_managed(kind: GroupKind) -> bool
    ensures { result ≡ is_user_managed kind }
{
    match kind {
        GroupKind::ReadOnly => false,
        GroupKind::AsynchronousWritethrough => false,
        GroupKind::SynchronousWritethrough => false,
        GroupKind::UserManaged => true,
    }
}

fn is_undone_group(group: &CreateGroup) -> bool
    ensures { result ≡ is_undone_group group.now }
{
    is_user_managed(group.kind)
}

// GROUP BY.
fn is_grouped(query: &Query) -> bool
    ensures { result ≡ is_grouped query.now }
{
    0 < query.groups.as_slice().len()
}

fn is_undone_statement(statement: &Stmt) -> bool
    ensures { result ≡ is_undone_statement statement.now }
{
    match statement {
        Stmt::Select(query) => is_grouped(query),
        Stmt::Write(_) => false,
        Stmt::CreateGroup(group) => is_undone_group(group),
        Stmt::CreateIndex(_) => true,
        Stmt::Load(_) => false,
        Stmt::Refresh(_) => false,
        Stmt::Unload(_) => false,
        Stmt::Flush(_) => false,
        Stmt::Alter(_) => false,
        Stmt::DropGroup(_) => false,
        Stmt::DropIndex(_) => true,
        Stmt::Call(_) => false,
        Stmt::Commit => false,
        Stmt::Rollback => false,
    }
}

fn is_undone_request(request: &Request) -> bool
    ensures { result ≡ is_undone_request request.now }
{
    match request {
        Request::Open(_) => false,
        Request::Close => false,
        Request::Statement(statement) => is_undone_statement(statement),
    }
}

/// Whether the line is read but isn't done yet.
pub(crate) fn is_undone(line: &Line) -> bool
    ensures { result ≡ is_undone line.now }
{
    match line {
        Line::Session(_, request) => is_undone_request(request),
        Line::Console(_) => false,
        Line::Clock(_) => false,
    }
}
