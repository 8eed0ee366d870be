//! Laws of what is printed.
ghost use Rattle.std.specs.Prelude.{◌≡◌};
ghost use Rattle.sql_subset.specs.declared.stmt.Stmt.{Stmt as OneStmt};
ghost use Rattle.sql_print.specs.Normal.{normal};

/// The normal form is its own.
pub fn normal_law()
    ensures { (s : OneStmt) → normal (normal s) ≡ normal s }
{}
