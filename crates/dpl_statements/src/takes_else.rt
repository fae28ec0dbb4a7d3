// Whether an `else` may follow a statement.
// It belongs to the nearest `if` that has none yet.

ghost use Rattle.std.specs.Prelude.{◌≡◌};
ghost use Rattle.dpl_tree.specs.Statements.{stmt_view, body_view};
ghost use Rattle.dpl_spelling.specs.Nested.{takes_else as stmt_takes, body_takes_else as body_takes};

use dpl_tree::{Body, Else, Stmt};

/// Whether an `else` may follow: the statement ends in an `if` without one.
#[cycle(takes_else)]
fn takes_else(stmt: &Stmt<'_>) -> bool
    ensures { result ≡ stmt_takes (stmt_view stmt.now) }
{
    match stmt {
        Stmt::Nothing(_) | Stmt::Declare(_) | Stmt::Assigned(_) | Stmt::Call(_) => false,
        Stmt::Write(_) | Stmt::Block(_) => false,
        Stmt::If(node) => match &node.otherwise {
            Else::Absent => true,
            Else::Do(_, last) => takes_else(last),
        },
        Stmt::Headed(node) => body_takes_else(&node.body),
        Stmt::For(node) => body_takes_else(&node.body),
        Stmt::Parallel(node) => body_takes_else(&node.body),
    }
}

/// The same of a body.
#[cycle(takes_else)]
pub fn body_takes_else(body: &Body<'_>) -> bool
    ensures { result ≡ body_takes (body_view body.now) }
{
    match body {
        Body::Word(_, stmt) => takes_else(stmt),
        Body::Block(_) => false,
    }
}
