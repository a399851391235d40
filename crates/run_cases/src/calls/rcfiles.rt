//! The statements of rcfiles, copies of them, and their flat code (pm_recipe, pm_code).
use crate::calls::failed::Failed;
use crate::calls::report::Report;
use pm_code::{Code, Step, compile};
use pm_recipe::{Action, Condition, Recipe, Statement, Weight, copy_statements, read_rc};
use std::alloc::Global;

// Statements of each kind.
const STATEMENTS: &[u8] =
    b"A = b  # comment\nC\n?\n:0 c: l\n* -7^1 d\n* 1.5^0 x\n* e\nmbox\n:0\n{ F=g\n}\n";

// Blocks in blocks.
const BLOCKS: &[u8] = b":0\n| cmd\n:0 e\n{ X=1\n:0 E\n{ W=1 }\n}\n:0 a\n{ Y=1 }\n:0 E\n{ Z=1 }\n";

pub fn show(alloc: Global, report: &mut Report) {
    let shown = show_statements(alloc, report);
    report.lines(shown);
    let shown = show_code(alloc, report);
    report.lines(shown);
    let shown = show_deep(alloc, report);
    report.lines(shown);
}

fn show_statements(alloc: Global, report: &mut Report) -> Result<(), Failed> {
    let rc = read_rc(alloc, STATEMENTS)?;
    show_copied(alloc, report, rc.statements.as_slice())
}

fn show_copied(alloc: Global, report: &mut Report, statements: &[Statement]) -> Result<(), Failed> {
    let copies = copy_statements(alloc, statements)?;
    print_statements(report, "read_rc", statements);
    print_statements(report, "copy_statements", copies.as_slice());
    Ok(())
}

fn show_code(alloc: Global, report: &mut Report) -> Result<(), Failed> {
    let rc = read_rc(alloc, BLOCKS)?;
    let code = compile(alloc, &rc)?;
    let copy = code.copy(alloc)?;
    print_steps(report, &code);
    print_steps(report, &copy);
    Ok(())
}

// How many steps blocks make that are as deep as they may be.
fn show_deep(alloc: Global, report: &mut Report) -> Result<(), Failed> {
    let mut text = Vec::new(alloc);
    for _ in 0..1000 {
        text.extend_from_slice(b":0\n{\n")?;
    }
    text.extend_from_slice(b":0\nmbox\n")?;
    for _ in 0..1000 {
        text.extend_from_slice(b"}\n")?;
    }
    let rc = read_rc(alloc, text.as_slice())?;
    let code = compile(alloc, &rc)?;
    let copy = code.copy(alloc)?;
    report.answer("steps", (code.steps.len(), copy.steps.len()));
    Ok(())
}

fn print_steps(report: &mut Report, code: &Code) {
    for step in &code.steps {
        print_step(report, step);
    }
}

fn print_statements(report: &mut Report, call: &str, statements: &[Statement]) {
    for statement in statements {
        print_statement(report, call, statement);
    }
}

fn print_statement(report: &mut Report, call: &str, statement: &Statement) {
    match statement {
        Statement::Assign { name, value } => {
            report.bytes(call, name.as_slice());
            report.bytes("  =", value.as_slice());
        }
        Statement::Unset { name } => {
            report.bytes(call, name.as_slice());
            report.word("  =", "unset");
        }
        Statement::Recipe(recipe) => print_recipe(report, call, recipe),
        Statement::Defect { line, text } => {
            report.answer(call, *line);
            report.bytes("  defect", text.as_slice());
        }
    }
}

fn print_recipe(report: &mut Report, call: &str, recipe: &Recipe) {
    report.word(
        call,
        if recipe.flags.copy {
            "recipe, c"
        } else {
            "recipe"
        },
    );
    if let Some(lock) = &recipe.lock {
        report.bytes("  lock", lock.as_slice());
    }
    for condition in &recipe.conditions {
        print_condition(report, condition);
    }
    print_action(report, &recipe.action);
}

fn print_condition(report: &mut Report, condition: &Condition) {
    match condition.weight {
        Weight::None => {}
        Weight::Some { w, x } => report.answer("  weight", (w, x)),
        Weight::Bad => report.word("  weight", "bad"),
    }
    report.bytes("  *", condition.text.as_slice());
}

fn print_action(report: &mut Report, action: &Action) {
    match action {
        Action::Mailbox(text) => report.bytes("  mailbox", text.as_slice()),
        Action::Pipe(line) => report.bytes("  |", line.as_slice()),
        Action::Capture { name, line: _ } => report.bytes("  = |", name.as_slice()),
        Action::Forward(text) => report.bytes("  !", text.as_slice()),
        Action::WriteOut => report.word("  |", "standard output"),
        Action::Block(statements) => report.answer("  {", statements.as_slice().len()),
    }
}

fn print_step(report: &mut Report, step: &Step) {
    match step {
        Step::Assign { name, value: _ } => report.bytes("Assign", name.as_slice()),
        Step::Unset { name } => report.bytes("Unset", name.as_slice()),
        Step::Defect { line, text: _ } => report.answer("Defect", *line),
        Step::Plain(recipe) => print_recipe(report, "Plain", recipe),
        Step::Enter { recipe: _, end } => report.answer("Enter", *end),
        Step::Leave { enter } => report.answer("Leave", *enter),
    }
}
